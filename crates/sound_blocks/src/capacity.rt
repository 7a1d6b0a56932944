// Business type and capacity fields, which go together: a series with capacity names a right, any other has none.
#![tactic(auto, using(layout::proofs::Tests::tests), unfolding(paper::specs::Sound::type_allowed, paper::specs::Sound::capacity_named, paper::specs::Sound::capacity_allowed))]

ghost use Rattle.std.specs.Prelude.{◌≡◌};
ghost use Rattle.paper.specs.Sound.{type_allowed, capacity_named, capacity_allowed};

use super::ranges::contract_allowed;
use field::{all_zero, id_well_formed};
use layout::{agreement, contract_type};
use slots::{is_external, is_trade, with_capacity};

pub fn type_allowed(x: &[u8]) -> bool
    ensures { result ≡ type_allowed x.now }
{
    is_trade(x) | is_external(x)
}

// Of a right too: what a series names it by.
pub fn capacity_named(x: &[u8]) -> bool
    ensures { result ≡ capacity_named x.now }
{
    contract_allowed(contract_type(x)) & id_well_formed(agreement(x))
}

pub fn capacity_allowed(x: &[u8]) -> bool
    ensures { result ≡ capacity_allowed x.now }
{
    if with_capacity(x) {
        return capacity_named(x);
    }
    (contract_type(x) == 0) & all_zero(agreement(x))
}
