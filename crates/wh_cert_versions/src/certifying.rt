//! The certificate of a tree of nodes, in the lowest version that can say all of them.

ghost use Rattle.std.specs.Prelude.{◌↔◌, All, IfOk, IsTrue, map};
ghost use Rattle.wh_cert.specs.Said.{said_node, said_yes};
ghost use Rattle.wh_cert_versions.specs.Certificates.{IsCertificateOf, IsFirst};

use std::alloc::{AllocError, Global};
use wh_cert::{Node, Nodes, YesCertificate};
use wh_cert_upgrade::upgrade_nodes;
use wh_types::Numbers;

/// The certificate of these nodes for a system with `rules` rules. It is of version 1 where each node is of that
/// version; else it is of version 2, and a node of interpretations that lists no rules gets the list of all.
#[tactic(auto, using(crate::proofs::CertificateLemmas::certificate_first, crate::proofs::CertificateLemmas::certificate_second))]
pub fn certificate_of(
    alloc: Global,
    ranks: Numbers,
    pairs: u32,
    rules: u32,
    nodes: Nodes,
) -> Result<YesCertificate, AllocError>
    ensures { IfOk result (λ made. IsCertificateOf rules ranks pairs (map said_node nodes) (said_yes made)) }
{
    if are_first(nodes.as_slice()) {
        return Ok(YesCertificate {
            version: 1,
            ranks,
            pairs,
            nodes,
        });
    }
    let nodes = upgrade_nodes(alloc, nodes.as_slice(), rules)?;
    Ok(YesCertificate {
        version: 2,
        ranks,
        pairs,
        nodes,
    })
}

// Whether all nodes are of version 1.
#[tactic(auto, using(crate::proofs::CertificateLemmas::first_more, crate::proofs::CertificateLemmas::first_all, crate::proofs::CertificateLemmas::one_not_first))]
fn are_first(nodes: &[Node]) -> bool
    ensures { IsTrue result ↔ All IsFirst nodes.now }
{
    for node in nodes {
        if !is_first(node) {
            return false;
        }
    }
    true
}

// Whether the node is of version 1.
fn is_first(node: &Node) -> bool
    ensures { IsTrue result ↔ IsFirst node.now }
{
    match node {
        Node::Poly(poly) => poly.usable.is_none(),
        Node::Order(_) => false,
        Node::Done | Node::Alone | Node::Blocks(_) | Node::Subterm { .. } => true,
    }
}
