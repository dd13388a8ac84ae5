// The two workspaces: when one is short, and clearing both. They stay two slices: the public calls are lent them so, for C
// too, and the walk uses the first alone.
#![tactic(auto)]

ghost use Rattle.std.specs.Prelude.{◌≡◌};
ghost use Rattle.workspace.specs.Workspace.{short, cleared};

// Whether a workspace is short.
pub fn is_short(work16: &[u16], work64: &[u64]) -> bool
    ensures { result ≡ short work16.now work64.now }
{
    work16.len() < 32768 || work64.len() < 128
}

// Clears both workspaces over their whole length.
pub fn clear(work16: &mut [u16], work64: &mut [u64])
    ensures { (work16.new ≡ cleared work16.old) × (work64.new ≡ cleared work64.old) }
{
    work16.fill(0);
    work64.fill(0);
}
