// Errors that look reasonable, each shown by a check that it would answer otherwise. Cases 5, 6 and 8 show three of them.
use crate::ask::both;
use std::io;

// Silent moves leave no mark: the flow does 2 after three silent moves, and 3 after one visible one.
const HESITATES: [u8; 42] = *b"\x05\0\x03\0\0\0\x05\0\x0c\0\0\0\
    \0\0\0\0\x02\0\
    \0\0\x01\0\x01\0\
    \x01\0\x03\0\x01\0\
    \x02\0\0\0\x03\0\
    \x03\0\x02\0\x04\0";

// The rule does 1 twice.
const TWICE: [u8; 24] = *b"\x03\0\x03\0\0\0\x02\0\x0c\0\0\0\
    \0\0\x01\0\x01\0\
    \x01\0\x01\0\x02\0";

// The flow does 1 for ever in its only state.
const ALWAYS: [u8; 18] = *b"\x01\0\x03\0\0\0\x01\0\x0c\0\0\0\
    \0\0\x01\0\0\0";

// Two states do 1: from the higher one comes 2, from the lower one 3.
const PARTS_WAYS: [u8; 36] = *b"\x05\0\x03\0\0\0\x04\0\x0c\0\0\0\
    \0\0\x01\0\x01\0\
    \0\0\x01\0\x02\0\
    \x01\0\x03\0\x03\0\
    \x02\0\x02\0\x04\0";

pub(crate) fn reasonable_errors(rt: &(impl Print + AllocGlobal)) -> io::Result<()> {
    // The length counts visible events: 2 comes before 1 3.
    both(rt, "silent moves before a fault:", &cases::r(), &HESITATES)?;
    // A pair is a node and a flow state: by flow states alone the walk would end at once.
    both(rt, "one flow state beside three nodes:", &TWICE, &ALWAYS)?;
    // Of the traces 1 2 and 1 3 the first is told, though the lower state does 3.
    both(rt, "two flow states after one trace:", &TWICE, &PARTS_WAYS)
}
