// The worked cases: small plans with their rows and verdicts. The table is in specs/, and that it stands is proved.
#![tactic(auto)]

ghost use Rattle.std.specs.Prelude.{◌≡◌, length};
ghost use Rattle.cases.specs.Table.{table, AllStand};

// How many cases are worked: the lines of the table, each of which stands.
pub fn worked_cases() -> usize
    ensures { (result ≡ length table) × AllStand table }
{
    17
}
