ghost use Rattle.std.specs.Prelude.{◌≡◌, ◌^◌, ◌<◌, ◌≤◌};

// `10^k`.
pub fn power_of_ten(k: u32) -> u64
    requires { k ≤ 3 }
    ensures value { result ≡ 10 ^ k }
    ensures some { 0 < result }
    ensures small { result ≤ 1000 }
{
    10u64.pow(k)
}
