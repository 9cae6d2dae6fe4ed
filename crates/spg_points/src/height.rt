ghost use Rattle.std.specs.Prelude.{◌≡◌};
ghost use Rattle.spg_points.specs.Heights.{lowered, raised};

/// How far a coordinate is above the lowest.
#[tactic(auto, unfolding(crate::specs::Heights::raised))]
pub fn raise(z: i32) -> u32
    ensures { result ≡ raised z }
{
    (z as i64 + 2147483648) as u32
}

/// The coordinate that is so far above the lowest.
#[tactic(auto, unfolding(crate::specs::Heights::lowered))]
pub fn lower(n: u32) -> i32
    ensures { result ≡ lowered n }
{
    (n as i64 - 2147483648) as i32
}
