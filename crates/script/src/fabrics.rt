//! What a line that names a fabric makes, and what it is answered: the size of the fabric, or why there is none.
ghost use Rattle.script.specs.Fabrics.{fabric_reply, listed_made, made_network, mesh_made, ready};
ghost use Rattle.std.specs.Option.{option_map};
ghost use Rattle.std.specs.Prelude.{◌≡◌};
ghost use Rattle.std.specs.Result.{result_ok};

use crate::reply::Reply;
use fabric::Fabric;
use fabric::mesh::Mesh;
use listed::Listed;
use records::head::HeadFault;
use refusals::refusal::Refusal;

/// A fabric that a line makes.
#[derive(Drop)]
pub enum Made<'l> {
    Mesh(Mesh),
    Listed(Listed<'l>),
}

fn ready<F: Fabric>(fabric: &F) -> Reply
    ensures { result ≡ ready (F.meaning fabric.now) }
{
    Reply::Ready {
        nodes: fabric.nodes(),
        links: fabric.link_numbers(),
    }
}

/// What a line that names a mesh is answered, and the mesh, if it is taken.
pub fn mesh_reply(x: u8, y: u8, delay: u8) -> (Reply, Option<Made<'static>>)
    ensures reply { result.0 ≡ fabric_reply (mesh_made x y delay) }
    ensures made { option_map made_network result.1 ≡ result_ok (mesh_made x y delay) }
{
    match Mesh::new(x, y, delay) {
        Ok(mesh) => (ready(&mesh), Some(Made::Mesh(mesh))),
        Err(_) => {
            let refusal = Refusal::plain(HeadFault::Limits.number());
            (Reply::Refused(refusal), None)
        }
    }
}

/// What a line with the file bytes of a listed fabric is answered, and the fabric, if it is taken.
pub fn listed_reply(file: &[u8]) -> (Reply, Option<Made<'_>>)
    ensures reply { result.0 ≡ fabric_reply (listed_made file.now) }
    ensures made { option_map made_network result.1 ≡ result_ok (listed_made file.now) }
{
    let mut fabric = Listed::new();
    match fabric.set(file) {
        Ok(_) => (ready(&fabric), Some(Made::Listed(fabric))),
        Err(fault) => (Reply::Told(fault.into()), None),
    }
}
