//! Draws of numbers.
ghost use Rattle.std.specs.Prelude.{◌≡◌, ◌≢◌};
ghost use Rattle.program_texts.specs.Text.{drawn_of, next_state};

/// The state of draws, one draw later.
pub fn next_state(state: u32) -> u32
    ensures { result ≡ next_state state }
{
    ((u64::from(state) * 1_103_515_245 + 12_345) % 2_147_483_648) as u32
}

/// What a state draws, of so many.
pub fn drawn_of(many: u32, state: u32) -> u32
    requires { many ≢ 0 }
    ensures { result ≡ drawn_of many state }
{
    state / 65_536 % many
}
