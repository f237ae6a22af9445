// Ported from committee.rs of mahi-mahi-consensus, Copyright (c) Mysten Labs, Inc., Apache-2.0.
// Changed: written anew in Rattle, with contracts. NOTICE says what was carried across and what was changed.

// The committee's size (committee.rs): all that the store needs of it.
#![tactic(auto)]

ghost use Rattle.std.specs.Prelude.{◌≡◌};
ghost use Rattle.refusal.specs.Refusals.{checked};
ghost use Rattle.committee.specs.Committee.{committee_check};

use refusal::Refusal;

// The check 18, of a committee's size and the own authority alone.
#[tactic(auto, unfolding(crate::specs::Committee::committee_check, refusal::specs::Refusals::checked, refusal::specs::Refusals::refusal_of, laws::specs::Pick::pick))]
pub fn check_committee(size: u64, own: u64) -> Result<(), Refusal>
    ensures { result ≡ checked (committee_check size own) }
{
    if size == 0 || 128 < size || size <= own {
        return Err(Refusal::Store);
    }
    Ok(())
}
