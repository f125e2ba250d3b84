//! Certificates of version 1, made certificates of version 2. `upgrade` is the main function. It copies the
//! certificate, since its caller has it checked and still holds it. The law that the copy is as valid stands in
//! wh_cert_upgrade_laws, so that this crate does not wait for wh_proof.

ghost use Rattle.std.specs.Prelude.{◌≡◌, ℕ, map, Some, IfOk};
ghost use Rattle.wh_reduction_pairs.specs.TaskData.{numbers_from};
ghost use Rattle.wh_cert.specs.Said.{said, said_node, said_poly, said_yes};
ghost use Rattle.wh_cert_upgrade.specs.Upgraded.{listed_or_all, upgraded, upgraded_node};

use crate::lists::{copy_numbers, numbers_below};
use crate::loops::copy_loop;
use crate::nodes::{copy_node, copy_nodes, copy_poly};
use std::alloc::{AllocError, Global};
use wh_cert::{Certificate, Node, Nodes, PolyNode, YesCertificate};
use wh_types::Numbers;

/// The certificate for a system with `rules` rules as one of version 2: a YES certificate of version 1 gets that
/// version, and each of its nodes of interpretations the list of all rules. Any other certificate is copied as it is.
/// The new certificate says the same of the system.
pub fn upgrade(
    alloc: Global,
    certificate: &Certificate,
    rules: u32,
) -> Result<Certificate, AllocError>
    ensures { IfOk result (λ c. said c ≡ upgraded rules (said certificate.now)) }
{
    match certificate {
        Certificate::Yes(yes) => Ok(Certificate::Yes(upgrade_yes(alloc, yes, rules)?)),
        Certificate::No(no) => Ok(Certificate::No(copy_loop(alloc, no)?)),
    }
}

/// The certificate of version 2 for a YES certificate of version 1.
fn upgrade_yes(
    alloc: Global,
    yes: &YesCertificate,
    rules: u32,
) -> Result<YesCertificate, AllocError>
    ensures { IfOk result (λ c. said_yes c ≡ upgraded rules (said_yes yes.now)) }
{
    let ranks = copy_numbers(alloc, yes.ranks.as_slice())?;
    if yes.version == 1 {
        let nodes = upgrade_nodes(alloc, yes.nodes.as_slice(), rules)?;
        return Ok(YesCertificate {
            version: 2,
            ranks,
            pairs: yes.pairs,
            nodes,
        });
    }
    let nodes = copy_nodes(alloc, yes.nodes.as_slice())?;
    Ok(YesCertificate {
        version: yes.version,
        ranks,
        pairs: yes.pairs,
        nodes,
    })
}

/// The nodes as nodes of version 2 for a system with `rules` rules, in their order: each node of interpretations that
/// lists no rules gets the list of all of them.
#[tactic(auto, using(crate::proofs::Copies::upgraded_joins, crate::proofs::Copies::upgraded_end))]
pub fn upgrade_nodes(alloc: Global, nodes: &[Node], rules: u32) -> Result<Nodes, AllocError>
    ensures { IfOk result (λ made. map said_node made ≡ map (upgraded_node rules) (map said_node nodes.now)) }
{
    let mut made = Nodes::new(alloc);
    for node in nodes {
        made.push(upgrade_node(alloc, node, rules)?)?;
    }
    Ok(made)
}

/// The node as one of version 2.
fn upgrade_node(alloc: Global, node: &Node, rules: u32) -> Result<Node, AllocError>
    ensures { IfOk result (λ made. said_node made ≡ upgraded_node rules (said_node node.now)) }
{
    match node {
        Node::Poly(node) => {
            let made = upgrade_poly(alloc, node, rules)?;
            Ok(Node::Poly(Box::new(alloc, made)?))
        }
        Node::Done | Node::Alone | Node::Blocks(_) | Node::Subterm { .. } | Node::Order(_) => {
            copy_node(alloc, node)
        }
    }
}

/// The node of interpretations with its list of rules, or with the list of all rules where it has none.
fn upgrade_poly(alloc: Global, node: &PolyNode, rules: u32) -> Result<PolyNode, AllocError>
    ensures { IfOk result (λ made. said_poly made ≡ upgraded_node rules (said_poly node.now)) }
{
    let usable = Some(rules_of(alloc, &node.usable, rules)?);
    copy_poly(alloc, node, usable)
}

/// The rules of the list, or all rules where there is none.
fn rules_of(alloc: Global, usable: &Option<Numbers>, rules: u32) -> Result<Numbers, AllocError>
    ensures { IfOk result (λ listed. Some listed ≡ listed_or_all rules usable.now) }
{
    match usable {
        Some(listed) => copy_numbers(alloc, listed.as_slice()),
        None => numbers_below(alloc, rules),
    }
}
