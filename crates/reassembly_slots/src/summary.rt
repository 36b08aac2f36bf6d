// The summary's number of a neighbour, a byte of its share of the record: how many messages it has open.
ghost use Rattle.std.specs.Prelude.{◌≡◌, ◌-◌, ◌≤◌, length};
ghost use Rattle.reassembly.specs.Sizes.{share_size};
ghost use Rattle.reassembly.specs.Summary.{open_count, with_open, lowered};

use reassembly::OPEN_AT;

// How many messages are open.
#[tactic(auto, unfolding(reassembly::specs::Summary::open_count))]
pub fn open_count(rec: &[u8]) -> u8
    requires { share_size ≤ length rec.now }
    ensures { result ≡ open_count rec.now }
{
    rec[OPEN_AT]
}

// So many are open now.
// Its answers stay: tried by unfolding, and the check does not find them.
pub fn save_open(rec: &mut [u8], n: u8)
    requires { share_size ≤ length rec.old }
    ensures { rec.new ≡ with_open rec.old n }
{
    rec[OPEN_AT] = n;
}

// One message less is open; never less than none.
pub fn lower(rec: &mut [u8])
    requires { share_size ≤ length rec.old }
    ensures { rec.new ≡ lowered rec.old }
{
    save_open(rec, open_count(rec).saturating_sub(1));
}
