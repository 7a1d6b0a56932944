// The ranges of the fields.
#![tactic(auto, using(layout::proofs::Tests::tests), unfolding(paper::specs::Ranges::whole_blocks, paper::specs::Ranges::n_allowed, paper::specs::Ranges::lead_allowed, paper::specs::Ranges::clock_allowed, paper::specs::Ranges::rule_allowed, paper::specs::Ranges::version_allowed, paper::specs::Ranges::count_allowed, paper::specs::Ranges::contract_allowed, paper::specs::Ranges::quantity_allowed, paper::specs::Ranges::net_allowed, paper::specs::Layout::same_rule, crate::specs::Layouts::allowed_in, paper::specs::Sound::differing_allowed, paper::specs::Conversion::state_allowed))]

ghost use Rattle.std.specs.Prelude.{◌≡◌};
ghost use Rattle.paper.specs.Ranges.{whole_blocks, n_allowed, lead_allowed, clock_allowed, rule_allowed, version_allowed, count_allowed, contract_allowed, quantity_allowed, net_allowed};
ghost use Rattle.sound_blocks.specs.Layouts.{allowed_in};

use paper::{LESSER, Minute, Rule, SELLERS};

pub fn whole_blocks(least: usize, most: usize, b: &[u8]) -> bool
    ensures { result ≡ whole_blocks least most b.now }
{
    (b.len() % 512 == 0) & (least..=most).contains(&(b.len() / 512))
}

// A day of 23, 24 or 25 hours.
pub fn n_allowed(n: u8) -> bool
    ensures { result ≡ n_allowed n }
{
    matches!(n, 92 | 96 | 100)
}

pub fn lead_allowed(lead: u16) -> bool
    ensures { result ≡ lead_allowed lead }
{
    lead <= 1440
}

pub fn clock_allowed(minute: Minute) -> bool
    ensures { result ≡ clock_allowed minute.0 }
{
    minute.0 <= 11580
}

// "0 seller's, 1 lesser", and no other byte.
pub fn rule_allowed(rule: Rule) -> bool
    ensures { result ≡ rule_allowed rule }
{
    (rule == SELLERS) | (rule == LESSER)
}

pub fn version_allowed(version: u16) -> bool
    ensures { result ≡ version_allowed version }
{
    (1..=999).contains(&version)
}

pub fn count_allowed(count: u16) -> bool
    ensures { result ≡ count_allowed count }
{
    (1..=200).contains(&count)
}

pub fn contract_allowed(contract: u8) -> bool
    ensures { result ≡ contract_allowed contract }
{
    (1..=99).contains(&contract)
}

pub fn quantity_allowed(kilowatts: u32) -> bool
    ensures { result ≡ quantity_allowed kilowatts }
{
    kilowatts <= 9999999
}

// A net below 0 stands in the upper half of the four bytes' numbers.
pub fn net_allowed(net: u32) -> bool
    ensures { result ≡ net_allowed net }
{
    (net <= 1999999800) | (2294967496 <= net)
}

// Byte 104 of a series: at how many positions its counterpart differs, or in the old layout the state.
pub fn differing_allowed(old: bool, n: u8, differing: u8) -> bool
    ensures { result ≡ allowed_in old n differing }
{
    if old {
        return (1..=3).contains(&differing);
    }
    differing <= n
}
