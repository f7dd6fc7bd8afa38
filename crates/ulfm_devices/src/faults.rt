//! Lines that have a fault.

/// What stands behind the header of a script of calls, and the kind of fault of line 2 that it has.
pub const LINE_FAULTS: [(&[u8], &str); 14] = [
    (b"\n", "verb"),
    (b" fail 0\n", "verb"),
    (b"\xff\n", "verb"),
    (
        b"xxxxxxxxxxxxxxxxxxxxxxxxxxxxxxxxxxxxxxxxxxxxxxxxxxxxxxxxxxxxxxxx\n",
        "verb",
    ),
    (
        b"xxxxxxxxxxxxxxxxxxxxxxxxxxxxxxxxxxxxxxxxxxxxxxxxxxxxxxxxxxxxxxxxx\n",
        "long",
    ),
    (
        b"xxxxxxxxxxxxxxxxxxxxxxxxxxxxxxxxxxxxxxxxxxxxxxxxxxxxxxxxxxxxxxxxxxxxxx",
        "cut",
    ),
    (b"fail 0 \n", "words"),
    (b"fail\n", "words"),
    (b"fail 00\n", "number"),
    (b"fail 0\r\n", "number"),
    (b"ack 0 0 10000\n", "number"),
    (b"agree 0 256 0\n", "number"),
    (b"agree 0 0 0000000F\n", "flag"),
    (b"split 0 0\n", "verb"),
];
