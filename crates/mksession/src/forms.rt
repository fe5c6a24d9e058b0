// The form of each record.
use crate::values::Value;
use Field::{Bare, Byte, Bytes, Messages, Named, Optional};
use Value::{Account, Address, Limit, Mark, Prefix, U8, U32, U64, Workchain};

// The fields of a record, in their order. The name of one without a `name:` is for messages alone.
#[derive(Clone, Copy, Debug)]
pub enum Field {
    // `name:` and the values.
    Named(&'static str, &'static [Value]),
    // The same; it may be left out, and is 0 then.
    Optional(&'static str, &'static [Value]),
    // The values alone.
    Bare(&'static str, &'static [Value]),
    // No word: the byte itself.
    Byte(u8),
    // To the end of the line: the count of messages, and the messages.
    Messages,
    // To the end of the line: bytes as they are.
    Bytes,
}

// The word that a line begins with, what kind of record it is, if one at all, and its fields. The kind is the number
// that is written: no code here tells one kind from another (no plainer as an enum).
#[derive(Clone, Copy, Debug)]
pub struct Form(pub &'static str, pub Option<u16>, pub &'static [Field]);

const KEY: &[Value] = &[U32, U64];

const PARTITION: &[Value] = &[Mark, U32, U32, U32];

const SETTINGS: &[Field] = &[
    Named("next_ms", &[U64]),
    Named("timeout_s", &[U32]),
    Named("seqno", &[U32]),
    Named("open_limit", &[U8]),
    Named("waiting", &[U8]),
    Named("limits", &[Limit]),
    Bare("limit", &[Limit; 7]),
];

const ANCHOR: &[Field] = &[
    Named("id", &[U32]),
    Named("time_ms", &[U64]),
    Optional("by", &[Account]),
    Named("ours", &[U32]),
    Messages,
];

const RANGE: &[Field] = &[
    Named("seqno", &[U32]),
    Named("from", KEY),
    Named("to", KEY),
    Named("position", KEY),
    Named("time_ms", &[U64]),
    Named("fully_read", &[U8]),
    Optional("p0", PARTITION),
    Optional("p1", PARTITION),
    Optional("p2", PARTITION),
    Optional("p3", PARTITION),
    Optional("p4", PARTITION),
    Optional("p5", PARTITION),
    Optional("p6", PARTITION),
    Optional("p7", PARTITION),
];

const INFO: &[Field] = &[
    Named("id", &[U32]),
    Named("time_ms", &[U64]),
    Named("all", &[U32]),
    Named("ours", &[U32]),
    Optional("by", &[Account]),
];

// README.md has the same table.
static FORMS: [Form; 29] = [
    Form(
        "shard",
        Some(0x0001),
        &[Bare("workchain", &[Workchain]), Bare("prefix", &[Prefix])],
    ),
    Form("settings", Some(0x0003), SETTINGS),
    Form(
        "route",
        Some(0x0002),
        &[Bare("address", &[Address]), Named("partition", &[U8])],
    ),
    Form("anchor", Some(0x0004), ANCHOR),
    Form("do", Some(0x0005), &[Bare("byte", &[U8])]),
    Form("open", Some(0x0005), &[Byte(1)]),
    Form("pop", Some(0x0005), &[Byte(2)]),
    Form("read", Some(0x0005), &[Byte(3)]),
    Form("refill", Some(0x0005), &[Byte(4)]),
    Form("commit", Some(0x0005), &[Byte(5)]),
    Form("rollback", Some(0x0005), &[Byte(6)]),
    Form("close", Some(0x0005), &[Byte(7)]),
    Form("range", Some(0x0101), RANGE),
    Form(
        "partition",
        Some(0x0102),
        &[
            Bare("partition", &[U8]),
            Named("present", &[U8]),
            Named("processed", KEY),
            Named("offset", &[U32]),
        ],
    ),
    Form(
        "marks",
        Some(0x0103),
        &[Named("all_read", &[U8]), Optional("last_ms", &[Mark, U64])],
    ),
    Form("places", Some(0x0104), &[Bare("places", &[U32])]),
    Form("limits", Some(0x0105), &[Bare("limit", &[Limit; 8])]),
    Form("history", Some(0x0106), INFO),
    Form("cached", Some(0x0107), ANCHOR),
    Form("area", Some(0x0108), &[Bare("bytes", &[U32])]),
    Form("trim", Some(0x0110), &[Named("time_ms", &[U64])]),
    Form(
        "one",
        Some(0x0111),
        &[Named("seqno", &[U32]), Named("mode", &[U8])],
    ),
    Form(
        "took",
        Some(0x0112),
        &[
            Named("seqno", &[U32]),
            Named("partition", &[U8]),
            Named("messages", &[U32]),
        ],
    ),
    Form(
        "function",
        Some(0x0113),
        &[
            Bare("function", &[U8]),
            Optional("partition", &[U8]),
            Optional("flag", &[U8]),
        ],
    ),
    Form("info_at", Some(0x0114), &[Named("time_ms", &[U64])]),
    Form(
        "in_range",
        Some(0x0115),
        &[Bare("id", &[U32]), Bare("offset", &[U64])],
    ),
    Form("new", Some(0x0116), &[]),
    Form("info", Some(0x0117), INFO),
    Form("hex", None, &[Bytes]),
];

pub fn of(word: &[u8]) -> Option<Form> {
    FORMS
        .iter()
        .find(|Form(first, ..)| first.as_bytes() == word)
        .copied()
}
