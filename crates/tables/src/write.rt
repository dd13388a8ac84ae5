// The writer.
ghost use Rattle.std.specs.Prelude.{◌≡◌, ◌∷◌, [], ◌++◌, ◌+◌, ◌*◌, ◌/◌, ◌%◌, ◌≤◌, ◌<◌, length, drop};
ghost use Rattle.csp.specs.Table.{move};
ghost use Rattle.tables.specs.Numbers.{over};
ghost use Rattle.tables.specs.Bytes.{header, encoded};
ghost use Rattle.tables.specs.Putting.{move_bytes, into};
ghost use Rattle.tables.specs.Writer.{table_from, WriteCall};

use crate::answer::Refusal;
use crate::listed;
use crate::num::put_all;

// Puts the header of a table with m moves. Its four numbers stay side by side, as the writer's call has them.
pub fn put_header(n: u16, e: u16, start: u16, m: u16, out: &mut [u8])
    requires { 12 ≤ length out.old }
    ensures { out.new ≡ header n e start m ++ drop 12 out.old }
{
    put_all(out, &[n, e, start, m, 12, 0]);
}

// Puts a move at byte `at` of the part that is lent for moves. Its numbers come one by one: no caller has a Move, and to make one
// would be no plainer. They fit 16 bits, so a conversion that can fail would add a case that never comes.
pub fn put_move(ms: &mut [u8], at: usize, from: usize, event: usize, to: usize)
    requires room { at + 6 ≤ length ms.old }
    requires numbers_fit { (from < 65536) × ((event < 65536) × (to < 65536)) }
    ensures { ms.new ≡ into at (move_bytes (move from event to ∷ [])) ms.old }
{
    put_all(&mut ms[at..], &[from as u16, event as u16, to as u16]);
}

// Puts the header, and the moves into the rest of the buffer, of what `write` was given.
fn put_table(n: u16, e: u16, start: u16, list: &[u16], out: &mut [u8])
    requires { (12 + 2 * length list.now ≤ length out.old) × ((length list.now / 3 ≤ 4096) × (length list.now % 3 ≡ 0)) }
    ensures { out.new ≡ over (encoded (table_from n e start list.now)) out.old }
{
    put_header(n, e, start, (list.len() / 3) as u16, out);
    put_all(&mut out[12..], list);
}

// Writes the table of n, e, start and a list of moves.
pub fn write(n: u16, e: u16, start: u16, list: &[u16], out: &mut [u8]) -> Result<usize, Refusal>
    ensures { WriteCall n e start list.now out.old result out.new }
{
    if let Some(k) = listed::test(n, e, start, list) {
        return Err(Refusal::Rule(k));
    }
    let size = 12 + 2 * list.len();
    if out.len() < size {
        return Err(Refusal::Call(18));
    }
    put_table(n, e, start, list, out);
    Ok(size)
}
