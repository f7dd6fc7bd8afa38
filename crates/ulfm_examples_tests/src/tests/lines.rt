// The examples of the lines of traces.

use std::test::Fail;
use ulfm_lines::{read_begin, read_happening, read_look};
use ulfm_model::{Call, Event, Line};

#[test]
fn trace_line_read_look(rt: HostRuntime) -> Result<(), Fail> {
    assert!(rt; read_look(b"").is_none());

    let told = read_look(b"look 5 2");
    assert!(rt; matches!(told, Some(Line::Looked { rank: 5, .. })));
    assert!(rt; read_look(b"look 5").is_none());
    assert!(rt; read_look(b"call get 5 0").is_none());

    Ok(())
}

#[test]
fn trace_line_read_begin(rt: HostRuntime) -> Result<(), Fail> {
    assert!(rt; read_begin(b"").is_none());

    let asked = Call::Poll { rank: 5, comm: 0 };
    let told = read_begin(b"call poll 5 0");
    assert!(rt; matches!(told, Some(Line::Called { call, .. }) if call == asked));
    assert!(rt; read_begin(b"look 5 2").is_none());

    Ok(())
}

#[test]
fn trace_line_read_happening(rt: HostRuntime) -> Result<(), Fail> {
    assert!(rt; read_happening(b"").is_none());

    let told = read_happening(b"event - fail 5");
    let failed = Some(Event::Fail { rank: 5 });
    assert!(rt; matches!(told, Some(Line::Happened { event, .. }) if event == failed));
    assert!(rt; read_happening(b"look 5 2").is_none());

    Ok(())
}
