// Writing a watchdog: its header, and its moves into the part of the buffer from byte 12 on.
ghost use Rattle.std.specs.Prelude.{◌≡◌, ◌+◌, ◌*◌, ◌≤◌, ◌<◌, length};
ghost use Rattle.tables.specs.Numbers.{over};
ghost use Rattle.tables.specs.Bytes.{row, encoded};
ghost use Rattle.tables.specs.Putting.{move_bytes, into};
ghost use Rattle.tables.specs.Answers.{built_says};
ghost use Rattle.watchdog.specs.Asking.{Puts};
ghost use Rattle.watchdog.specs.Rows.{target, node_move, watch_moves, watch_table};

use normal::form::Form;
use std::marker::Model;
use tables::answer::Refusal;
use tables::write::{put_header, put_move};

// Where a node goes: its next node, or state k if there is none.
fn target_of(next: u8, k: usize) -> usize
    requires { k ≤ 64 }
    ensures { (result ≡ target next k) × (result < 256) }
{
    if next == 255 {
        return k;
    }
    usize::from(next)
}

// A form whose watchdog is a table: of at most 64 nodes, and with an event to spare.
#[derive(Drop)]
struct Watched<'a> {
    form: &'a Form,
}

impl<'a> Model for Watched<'a> {
    ghost use Rattle.std.specs.Prelude.{◌≤◌, ◌<◌};
    ghost use Rattle.normal.specs.declared.form.Form.{Form};

    ghost Value = { Form };

    ghost view = { λ w. w.form.now };

    ghost invariant = { λ w. (w.form.now.count ≤ 64) × (w.form.now.events < 63) };
}

impl Watched<'_> {
    // Puts the moves of node i by all events, from byte `at` on.
    fn put_node(&self, ms: &mut [u8], at: usize, i: usize)
        requires room { at + 6 * self.now.events ≤ length ms.old }
        requires i_fits { i < 64 }
        ensures { ms.new ≡ into at (move_bytes (row (node_move self.now.next self.now.count i) self.now.events)) ms.old }
    {
        let form = self.form;
        for d in 0..form.events {
            let e = d + 1;
            let to = target_of(form.next[64 * i + e], form.count);
            put_move(ms, at + 6 * d, i, e, to);
        }
    }

    // Puts all moves, from byte 0 of the part on.
    fn put_moves(&self, ms: &mut [u8])
        requires { 6 * (self.now.count * self.now.events + 1) ≤ length ms.old }
        ensures { ms.new ≡ over (move_bytes (watch_moves self.now.next self.now.count self.now.events)) ms.old }
    {
        let k = self.form.count;
        let last = self.form.events;
        for i in 0..k {
            self.put_node(ms, 6 * (i * last), i);
        }
        put_move(ms, 6 * (k * last), k, last + 1, k);
    }
}

// Puts the watchdog of a form where it fits.
pub fn put_watchdog(form: &Form, out: &mut [u8]) -> Result<usize, Refusal>
    requires count_fits { form.now.count ≤ 64 }
    requires events_fit { form.now.events < 63 }
    ensures { Puts (encoded (watch_table form.now)) out.old (built_says result) out.new }
{
    let k = form.count;
    let last = form.events;
    let m = k * last + 1;
    let size = 12 + 6 * m;
    if out.len() < size {
        return Err(Refusal::Call(18));
    }
    // all fit 16 bits: at most 65 states, 63 events, 3,969 moves
    put_header((k + 1) as u16, (last + 1) as u16, 0, m as u16, out);
    let watched = Watched { form };
    watched.put_moves(&mut out[12..]);
    Ok(size)
}
