// The trial tables that the order marks, byte by byte: a line for the header, then a line a move. The function of each
// says that its bytes are those of the table in specs/. One function for all would be no plainer: the arrays differ in
// length, so it would hand out slices, by a match with an arm for each.
#![tactic(auto, unfolding(tables::specs::Bytes::encoded, tables::specs::Bytes::threes, tables::specs::Numbers::bytes))]

ghost use Rattle.std.specs.Prelude.{◌≡◌};
ghost use Rattle.cases.specs.Tables.{bytes_r, bytes_stop, bytes_div, bytes_flow2, bytes_flow3, bytes_rule7, bytes_flow7, bytes_flow9, bytes_join10, bytes_loop11, bytes_watchdog12};

pub const R: [u8; 30] = *b"\x03\0\x03\0\0\0\x03\0\x0c\0\0\0\
    \0\0\x01\0\x01\0\
    \x01\0\x02\0\x02\0\
    \x02\0\x03\0\0\0";

pub fn r() -> [u8; 30]
    ensures { result ≡ bytes_r }
{
    R
}

pub const STOP: [u8; 12] = *b"\x01\0\x03\0\0\0\0\0\x0c\0\0\0";

pub fn stop() -> [u8; 12]
    ensures { result ≡ bytes_stop }
{
    STOP
}

pub const DIV: [u8; 24] = *b"\x02\0\x03\0\0\0\x02\0\x0c\0\0\0\
    \0\0\0\0\x01\0\
    \x01\0\0\0\0\0";

pub fn div() -> [u8; 24]
    ensures { result ≡ bytes_div }
{
    DIV
}

pub const FLOW_2: [u8; 36] = *b"\x03\0\x03\0\0\0\x04\0\x0c\0\0\0\
    \0\0\x01\0\x01\0\
    \x01\0\x02\0\x02\0\
    \x01\0\x03\0\0\0\
    \x02\0\x03\0\0\0";

pub fn flow_2() -> [u8; 36]
    ensures { result ≡ bytes_flow2 }
{
    FLOW_2
}

pub const FLOW_3: [u8; 18] = *b"\x02\0\x03\0\0\0\x01\0\x0c\0\0\0\
    \0\0\x01\0\x01\0";

pub fn flow_3() -> [u8; 18]
    ensures { result ≡ bytes_flow3 }
{
    FLOW_3
}

pub const RULE_7: [u8; 36] = *b"\x04\0\x03\0\0\0\x04\0\x0c\0\0\0\
    \0\0\0\0\x01\0\
    \0\0\0\0\x02\0\
    \x01\0\x01\0\x03\0\
    \x02\0\x02\0\x03\0";

pub fn rule_7() -> [u8; 36]
    ensures { result ≡ bytes_rule7 }
{
    RULE_7
}

pub const FLOW_7: [u8; 24] = *b"\x02\0\x03\0\0\0\x02\0\x0c\0\0\0\
    \0\0\x01\0\x01\0\
    \0\0\x02\0\x01\0";

pub fn flow_7() -> [u8; 24]
    ensures { result ≡ bytes_flow7 }
{
    FLOW_7
}

pub const FLOW_9: [u8; 24] = *b"\x02\0\x03\0\0\0\x02\0\x0c\0\0\0\
    \0\0\x02\0\x01\0\
    \0\0\x03\0\x01\0";

pub fn flow_9() -> [u8; 24]
    ensures { result ≡ bytes_flow9 }
{
    FLOW_9
}

pub const JOIN_10: [u8; 30] = *b"\x09\0\x03\0\0\0\x03\0\x0c\0\0\0\
    \0\0\x01\0\x04\0\
    \x04\0\x02\0\x08\0\
    \x08\0\x03\0\0\0";

pub fn join_10() -> [u8; 30]
    ensures { result ≡ bytes_join10 }
{
    JOIN_10
}

pub const LOOP_11: [u8; 18] = *b"\x01\0\x01\0\0\0\x01\0\x0c\0\0\0\
    \0\0\x01\0\0\0";

pub fn loop_11() -> [u8; 18]
    ensures { result ≡ bytes_loop11 }
{
    LOOP_11
}

pub const WATCHDOG_12: [u8; 72] = *b"\x04\0\x04\0\0\0\x0a\0\x0c\0\0\0\
    \0\0\x01\0\x01\0\
    \0\0\x02\0\x03\0\
    \0\0\x03\0\x03\0\
    \x01\0\x01\0\x03\0\
    \x01\0\x02\0\x02\0\
    \x01\0\x03\0\x03\0\
    \x02\0\x01\0\x03\0\
    \x02\0\x02\0\x03\0\
    \x02\0\x03\0\0\0\
    \x03\0\x04\0\x03\0";

pub fn watchdog_12() -> [u8; 72]
    ensures { result ≡ bytes_watchdog12 }
{
    WATCHDOG_12
}
