// Where the parts of a body are. Each table has a row for sixteen kinds: a table for each question, since one table
// of records would have 112.
ghost use Rattle.std.specs.Prelude.{◌≤◌};

use crate::fields;

// Whether the body has a payload.
pub(crate) fn has_payload(kind: u8) -> bool {
    let table = b"\
-+--------------\
+++-------------\
++++------------\
-++++-----------\
-----++---------\
++++------------\
--++--+-------+-";
    fields::byte(table, kind as usize) == b'+'
}

// How many bytes stand before it.
pub(crate) fn before_payload(kind: u8) -> usize {
    if kind == 0x6e {
        return 4;
    }
    match kind / 16 {
        1 => 14,
        2 => 12,
        _ => 0,
    }
}

// What the calls of a kind write into a lent buffer: nothing, one packet (or a part of one, or a dump), one to
// three packets, or what a call writes that is made many times.
#[derive(Clone, Copy, PartialEq, Eq, Drop)]
pub(crate) enum Form {
    Nothing,
    One,
    UpToThree,
    Many,
}

// The form of a kind. The headers of kinds 49 and 4a come back by value.
pub(crate) fn form_of(kind: u8) -> Form {
    let table = b"\
----------------\
111-------------\
11nn------------\
-11nn-----------\
-----1111--33311\
33nn------------\
--------1111-1--";
    match fields::byte(table, kind as usize) {
        b'1' => Form::One,
        b'3' => Form::UpToThree,
        b'n' => Form::Many,
        _ => Form::Nothing,
    }
}

// How many bytes stand before what was written, or before the record in kinds 60 to 6f that copy nothing
// out; behind the payload, if there is one. 0 for kinds 01 to 05, 30, 40 to 44, 49 and 4a, whose functions
// know their places.
pub(crate) fn skip(kind: u8) -> usize
    ensures { result ≤ 255 }
{
    let table = b"\
\x00\x00\x00\x00\x00\x00\x00\x00\x00\x00\x00\x00\x00\x00\x00\x00\
\x04\x02\x00\x00\x00\x00\x00\x00\x00\x00\x00\x00\x00\x00\x00\x00\
\x07\x07\x05\x05\x00\x00\x00\x00\x00\x00\x00\x00\x00\x00\x00\x00\
\x00\x00\x00\x04\x04\x00\x00\x00\x00\x00\x00\x00\x00\x00\x00\x00\
\x00\x00\x00\x00\x00\x00\x00\x00\x00\x00\x00\x00\x00\x00\x00\x00\
\x03\x03\x01\x01\x00\x00\x00\x00\x00\x00\x00\x00\x00\x00\x00\x00\
\x08\x08\x04\x08\x0c\x08\x04\x08\x00\x08\x08\x00\x08\x08\x00\x08";
    fields::byte(table, kind as usize) as usize
}
