// The values that a server starts with, and what the two servers answer from them in the worked cases.
#![tactic(auto)]

ghost use Rattle.std.specs.Prelude.{◌≡◌, replicate, pos};
ghost use Rattle.cases.specs.Worked.{WorkedCases};

/// The values that a server starts with.
pub fn starting_values() -> [i32; 1024]
    ensures zeros { result ≡ replicate 1024 (pos 0) }
    ensures worked_cases { WorkedCases result }
{
    [0; 1024]
}
