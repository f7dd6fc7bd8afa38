//! The style of a picture: colours that stand out from their ground by 4.5 and more, for light and for dark.

/// The style: no font but the reader's own, and nothing from elsewhere.
pub(crate) const STYLE: &[u8] = b"
text{font:12px ui-monospace,DejaVu Sans Mono,Menlo,Consolas,monospace;fill:#1f2933}
text.h{font:600 17px system-ui,DejaVu Sans,sans-serif}
text.s,text.g{font:12px system-ui,DejaVu Sans,sans-serif;fill:#52606d}
text.n{font:600 13px system-ui,DejaVu Sans,sans-serif;text-anchor:middle}
text.i,text.c{font-size:11px;text-anchor:end;fill:#52606d}
text.c{text-anchor:middle}
text.t{font-size:10px;fill:#3e4c59}
text.d,text.v{font-weight:600}
text.w{fill:#9b1c1c;font-weight:600}
.bg{fill:#fff}.row{fill:#f5f7fa}.why{fill:#fbd5d3}.fog{fill:#fdf0ef}
.lane{stroke:#cbd2d9;stroke-width:2}
.lead{stroke:#cbd2d9;stroke-dasharray:1 4}
.dead{stroke:#c53030;stroke-width:2;stroke-dasharray:2 4}
.start{fill:#dbe7f5;stroke:#3d6a99}
.pend{fill:#fff;stroke:#616e7c;stroke-dasharray:3 2}
.good{fill:#cfeadb;stroke:#22744a}
.warn{fill:#fde9b8;stroke:#8a5a10}
.bad{fill:#fbd5d3;stroke:#c53030}
.open{fill:#eef1f5;stroke:#616e7c}
.dot{fill:#1f2933}
.look{stroke:#1f2933;stroke-width:2}
.link{stroke:#c53030;stroke-width:2}
.mark{stroke:#3e4c59;stroke-width:2;fill:#fff}
.fail{fill:#c53030;stroke:#fff;stroke-width:2}
.rev{fill:#6b46c1}
.revl{stroke:#6b46c1;stroke-width:2;stroke-dasharray:6 4}
.new{fill:#0f6b64;stroke:#fff;stroke-width:2}
.pt{fill:#fff;stroke:#1f2933;stroke-width:2}
.ptl{stroke:#1f2933}
.all{fill:#52606d}text.all{fill:#3e4c59}
.k0,text.k0{fill:#0067a1}.k1,text.k1{fill:#a35200}.k2,text.k2{fill:#006e53}.k3,text.k3{fill:#97406f}.k4,text.k4{fill:#5b4bc4}.k5,text.k5{fill:#6b5d00}
@media (prefers-color-scheme:dark){
text{fill:#e4e7eb}text.s,text.g,text.i,text.c{fill:#a8b5c2}text.t{fill:#cbd2d9}text.w{fill:#ff9c9c}
.bg{fill:#11161c}.row{fill:#1a2129}.why{fill:#4a1c1c}.fog{fill:#2a1719}
.lane,.lead{stroke:#465362}.dead,.link{stroke:#ff7b7b}
.start{fill:#1d3a57;stroke:#7db1e8}.pend{fill:#11161c;stroke:#a8b5c2}.good{fill:#17402c;stroke:#5fcf95}
.warn{fill:#4a3710;stroke:#e8b84e}.bad{fill:#4a1c1c;stroke:#ff7b7b}.open{fill:#2a323b;stroke:#a8b5c2}
.dot{fill:#e4e7eb}.look,.ptl{stroke:#e4e7eb}.mark{stroke:#cbd2d9;fill:#11161c}.fail{fill:#ff7b7b;stroke:#11161c}
.rev{fill:#b79cf5}.revl{stroke:#b79cf5}.new{fill:#4fd1c5;stroke:#11161c}.pt{fill:#11161c;stroke:#e4e7eb}
.all{fill:#a8b5c2}text.all{fill:#cbd2d9}
.k0,text.k0{fill:#6fbdf2}.k1,text.k1{fill:#f2a968}.k2,text.k2{fill:#5cd1ac}.k3,text.k3{fill:#ea9bc9}.k4,text.k4{fill:#b9aef7}.k5,text.k5{fill:#dcc964}
}
";

/// The class of a round's colour, of which there are six in turn.
pub(crate) fn round_class(round: u16) -> &'static [u8] {
    match round % 6 {
        0 => b"k0",
        1 => b"k1",
        2 => b"k2",
        3 => b"k3",
        4 => b"k4",
        _ => b"k5",
    }
}

/// The class of the words beside what is decided, or brought about for all.
pub(crate) fn note_class(round: Option<u16>) -> &'static [u8] {
    match round {
        None => b"d all",
        Some(round) => match round % 6 {
            0 => b"d k0",
            1 => b"d k1",
            2 => b"d k2",
            3 => b"d k3",
            4 => b"d k4",
            _ => b"d k5",
        },
    }
}
