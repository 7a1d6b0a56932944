// A series block.
#![tactic(auto, using(layout::proofs::Tests::tests), unfolding(paper::specs::Sound::parties_of, paper::specs::Sound::owner_sound, paper::specs::Sound::partner_sound, paper::specs::Sound::series_fields, paper::specs::Sound::series_codes, paper::specs::Sound::series_values, paper::specs::Sound::series_sound))]

ghost use Rattle.std.specs.Prelude.{◌≡◌, ◌≤◌};
ghost use Rattle.laws.specs.Cut.{cut};
ghost use Rattle.paper.specs.Layout.{n_of};
ghost use Rattle.paper.specs.Sound.{parties_of, owner_sound, partner_sound, series_fields, series_codes, series_values, series_sound};

use super::areas::areas_allowed;
use super::capacity::{capacity_allowed, type_allowed};
use super::entries::quantities_allowed;
use super::ranges::version_allowed;
use eic::eic_valid;
use field::{id_well_formed, part_of, same};
use layout::{
    area, first, id_of, in_party, n_of, out_party, pair, partner, sender, senders_slot, version,
};
use paper::Slot;
use slots::{is_external, is_sender, is_series, numbered};

// A submission asks the same of a message's series. An external schedule may have its sender as both parties.
pub fn parties_of(external: bool, e: &[u8], p: &[u8]) -> bool
    ensures { result ≡ parties_of external e.now p.now }
{
    let one = part_of(p, 0, 16);
    let other = part_of(p, 16, p.len());
    (external | !same(one, other)) & (same(one, e) | same(other, e))
}

fn owner_sound(us: &[u8], x: &[u8]) -> bool
    ensures { result ≡ owner_sound (cut 512 us.now) x.now }
{
    let owner = numbered(us, senders_slot(x));
    is_sender(owner) & parties_of(is_external(x), sender(owner), pair(x))
}

fn partner_sound(us: &[u8], x: &[u8]) -> bool
    ensures { result ≡ partner_sound (cut 512 us.now) x.now }
{
    (partner(x) == Slot(0)) | is_series(numbered(us, partner(x)))
}

fn series_fields(d: &[u8], x: &[u8]) -> bool
    ensures { result ≡ series_fields d.now x.now }
{
    (n_of(x) == n_of(d))
        & version_allowed(version(x))
        & type_allowed(x)
        & capacity_allowed(x)
        & id_well_formed(id_of(x))
}

fn series_codes(d: &[u8], x: &[u8]) -> bool
    ensures { result ≡ series_codes d.now x.now }
{
    areas_allowed(area(d), x) & eic_valid(in_party(x)) & eic_valid(out_party(x))
}

fn series_values(d: &[u8], x: &[u8]) -> bool
    requires { n_of d.now ≤ 100 }
    ensures { result ≡ series_values d.now x.now }
{
    let n = n_of(d) as usize;
    (first(x).0 <= n) & quantities_allowed(n, x)
}

pub fn series_sound(d: &[u8], us: &[u8], x: &[u8]) -> bool
    requires { n_of d.now ≤ 100 }
    ensures { result ≡ series_sound d.now (cut 512 us.now) x.now }
{
    series_fields(d, x)
        & series_codes(d, x)
        & series_values(d, x)
        & owner_sound(us, x)
        & partner_sound(us, x)
}
