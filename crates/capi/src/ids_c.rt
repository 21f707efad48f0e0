// The id routines under the names of the C interface: each is the routine of `chain` or `pieces`, and its answer as a number.
// Stays here: slices and numbers, since that is the C interface; what makes numbers of answers is a function, since neither Result nor
// Option nor u32 is a type of this crate.
ghost use Rattle.std.specs.Prelude.{◌≡◌, ◌≤◌};
ghost use Rattle.ids.specs.Uses.{bit};
ghost use Rattle.ids.specs.Refusal.{answer_number, refused_number};
ghost use Rattle.ids.specs.Lent.{most_entries};
ghost use Rattle.chain.specs.Numbers.{incidence_number, net_number};
ghost use Rattle.chain.specs.Numbers.{EdgeChainNumbered, FaceNetNumbered, ClosedManifoldNumbered, WindingCoherentNumbered};
ghost use Rattle.pieces.specs.Numbers.{PiecesNumbered};

use chain::{Incidence, Net};
use ids::Refusal;

// ---- answers as numbers

// A refusal: 2^31, and its number in the documents.
pub(crate) fn refused(why: Refusal) -> u32
    ensures { result ≡ refused_number why }
{
    0x8000_0000 + u32::from(why)
}

// An answer that is a number, or the refusal's.
#[tactic(auto, unfolding(ids::specs::Refusal::answer_number))]
fn answer_number(answer: Result<u32, Refusal>) -> u32
    ensures { result ≡ answer_number answer }
{
    match answer {
        Ok(n) => n,
        Err(why) => refused(why),
    }
}

#[tactic(auto, using(ids::proofs::Bits::byte_bit, ids::proofs::Bits::byte_small))]
fn incidence_number(said: Incidence) -> u32
    ensures { result ≡ incidence_number said }
{
    said.boundary_free as u32 + 2 * said.over_incident as u32
}

#[tactic(auto, using(ids::proofs::Bits::byte_bit, ids::proofs::Bits::byte_small))]
fn net_number(said: Net) -> u32
    requires { said.max_abs ≤ most_entries }
    ensures { result ≡ net_number said }
{
    2 * said.max_abs + said.all_cancel as u32
}

#[tactic(auto, using(ids::proofs::Bits::byte_bit, ids::proofs::Bits::byte_small))]
fn yes_number(yes: bool) -> u32
    ensures { result ≡ bit yes }
{
    yes as u32
}

// ---- the routines

#[unsafe(no_mangle)]
pub extern "C" fn mf_edge_chain(ids: &[u32], work: &mut [u32]) -> u32
    ensures { EdgeChainNumbered ids.now work.old result work.new }
{
    answer_number(chain::edge_chain(ids, work).map(incidence_number))
}

#[unsafe(no_mangle)]
pub extern "C" fn mf_face_net(ids: &[u32], work: &mut [u32]) -> u32
    ensures { FaceNetNumbered ids.now work.old result work.new }
{
    answer_number(chain::face_net(ids, work).map(net_number))
}

#[unsafe(no_mangle)]
pub extern "C" fn mf_is_closed_manifold(ids: &[u32], work: &mut [u32]) -> u32
    ensures { ClosedManifoldNumbered ids.now work.old result work.new }
{
    answer_number(chain::is_closed_manifold(ids, work).map(yes_number))
}

#[unsafe(no_mangle)]
pub extern "C" fn mf_winding_coherent(ids: &[u32], work: &mut [u32]) -> u32
    ensures { WindingCoherentNumbered ids.now work.old result work.new }
{
    answer_number(chain::winding_coherent(ids, work).map(yes_number))
}

#[unsafe(no_mangle)]
pub extern "C" fn mf_pieces(ids: &[u32], work: &mut [u32]) -> u32
    ensures { PiecesNumbered ids.now work.old result work.new }
{
    answer_number(pieces::pieces(ids, work))
}
