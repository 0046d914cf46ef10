ghost use Rattle.std.specs.Prelude.{◌≡◌, ◌≤◌, ◌+◌, ◌^◌, ◌==◌, if◌then◌else◌};
ghost use Rattle.mr_exchange.specs.Board.{pairs_shown};

/// The slot to look at after this one, where none is looked at behind the latest.
pub fn next_slot(slot: u32, latest: u32) -> u32
    requires { slot ≤ latest }
    ensures { result ≡ (if slot == latest then 0 else slot + 1) }
{
    if slot == latest { 0 } else { slot + 1 }
}

/// How many pairs the clause of a row has, by its head.
pub fn pairs_shown(head: u64) -> u64
    requires { 2 ^ 63 ≤ head }
    ensures { result ≡ pairs_shown head }
{
    (head - (1 << 63)) / (1 << 40)
}
