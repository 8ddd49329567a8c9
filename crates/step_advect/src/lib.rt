//! The step that moves a cell variable with the flow.
//!
//! Through each face between two cells a speed carries a part of the content of the cell that it comes from.
//! A leaf cell loses what flows out of it, and stores what is left where that is in range.
#![tactic(auto)]

ghost use Rattle.std.specs.Prelude.{◌≡◌, ℕ, ◌*◌, ◌^◌, ◌≤◌, ◌-ℤ◌, unsigned_abs, IsErr, IfOk, IfErr, ◌↔◌};
ghost use Rattle.amr_num.specs.Numbers.{Within};
ghost use Rattle.step_advect.specs.Flux.{donor_of, flux_between};
ghost use Rattle.step_advect.specs.Settled.{IsAboveRange};

mod fluxes;
pub mod laws;
mod update;

use amr_num::{RANGE, carry};
pub use fluxes::face_fluxes;
pub use update::{RangeAt, apply};

/// The flux through a face at `level` between two cells with the contents `low` and `high`, `low` on the side of
/// the smaller position: what `speed` carries of the donor, which is the cell that it comes from, and 0 on a
/// closed side. The speed counts in 2^-20 of the coarsest cell a step.
///
/// The level is at most 10, and the speed moves at most one cell of this level a step. A flux is no greater than
/// the greater of the contents.
#[tactic(auto, unfolding(crate::specs::Flux::flux_between))]
pub fn flux(level: u32, speed: i64, low: i64, high: i64, closed: bool) -> i64
    requires level { level ≤ 10 }
    requires speed { unsigned_abs speed * 2 ^ level ≤ 2 ^ 20 }
    requires low { Within (2 ^ 56) low }
    requires high { Within (2 ^ 56) high }
    ensures value { result ≡ flux_between level speed low high closed }
    ensures size { (most : ℕ) → Within most low → Within most high → Within most result }
{
    if closed {
        0
    } else {
        carry(speed, level, donor(speed, low, high))
    }
}

/// The content of the donor, the cell beside a face that the speed comes from.
fn donor(speed: i64, low: i64, high: i64) -> i64
    ensures { result ≡ donor_of speed low high }
{
    if speed < 0 { high } else { low }
}

/// What a leaf cell holds after it lost `net`, its net outflow. A number above [`RANGE`] in absolute value is
/// refused, and the error carries it.
pub fn settled(content: i64, net: i128) -> Result<i64, i128>
    requires { Within (2 ^ 60) net }
    ensures refused { IsErr result ↔ IsAboveRange (content -ℤ net) }
    ensures left { IfOk result (λ n. n ≡ content -ℤ net) }
    ensures in_range { IfOk result (λ n. Within (2 ^ 40) n) }
    ensures excess { IfErr result (λ n. n ≡ content -ℤ net) }
    ensures above { IfErr result (λ n. IsAboveRange n) }
{
    let left = i128::from(content) - net;
    let range = i128::from(RANGE);
    if left < -range || range < left {
        Err(left)
    } else {
        Ok(left as i64)
    }
}

#[cfg(test)]
mod tests;
