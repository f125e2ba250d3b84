//! The text of a certificate. `print_certificate` is the main function; each other printer appends to a list of bytes.
//! Where memory is wanting the list may have got the first bytes of the text.

ghost use Rattle.std.specs.Prelude.{◌≡◌, ◌++◌, map, IfOk, OnOk};
ghost use Rattle.std.specs.Fmt.{decimal};
ghost use Rattle.wh_terms.specs.Places.{IsPath};
ghost use Rattle.wh_text.specs.Pushes.{Pushes};
ghost use Rattle.wh_cert.specs.Written.{blocks, subterm};
ghost use Rattle.wh_cert.specs.Text.{put_path, put_rule, put_step, put_steps, put_put, put_puts, put_entry, put_numbers, put_line, put_block, put_blocks, put_arg, put_args, put_usable, put_node, put_nodes, text};
ghost use Rattle.wh_cert.specs.Said.{said_arg, said_poly, said_order, said_node, said_yes, said_put, said_no, said};

use crate::print_lines::{print_covers, print_interps};
use crate::print_order::{print_filters, print_inferences};
use std::alloc::{AllocError, Global};
use wh_cert::{Arg, Certificate, NoCertificate, Node, OrderNode, PolyNode, Put, YesCertificate};
use wh_terms::Step;
use wh_text::{print_number, print_part, print_term};
use wh_types::{Bytes, Numbers};

/// The text of a certificate.
pub fn print_certificate(alloc: Global, certificate: &Certificate) -> Result<Bytes, AllocError>
    ensures { IfOk result (λ bytes. bytes ≡ text (said certificate.now)) }
{
    let mut out = Bytes::new(alloc);
    match certificate {
        Certificate::Yes(certificate) => print_yes(&mut out, certificate)?,
        Certificate::No(certificate) => print_no(&mut out, certificate)?,
    }
    Ok(out)
}

/// Appends the text of a YES certificate.
fn print_yes(out: &mut Bytes, certificate: &YesCertificate) -> Result<(), AllocError>
    ensures { OnOk result (out.new ≡ out.old ++ text (said_yes certificate.now)) }
{
    out.append(b"YES ")?;
    print_number(out, certificate.version)?;
    out.append(b"\nranks")?;
    print_line(out, certificate.ranks.as_slice())?;
    out.append(b"pairs ")?;
    print_number(out, certificate.pairs)?;
    out.push(b'\n')?;
    print_nodes(out, certificate.nodes.as_slice())?;
    out.append(b"end\n")
}

/// Appends the rest of a line of numbers, a space before each.
fn print_line(out: &mut Bytes, numbers: &[u32]) -> Result<(), AllocError>
    ensures { OnOk result (Pushes out.old out.new (put_line numbers.now)) }
{
    print_numbers(out, numbers)?;
    out.push(b'\n')
}

/// Appends numbers, a space before each.
fn print_numbers(out: &mut Bytes, numbers: &[u32]) -> Result<(), AllocError>
    ensures { OnOk result (Pushes out.old out.new (put_numbers numbers.now)) }
{
    for number in numbers {
        print_entry(out, *number)?;
    }
    Ok(())
}

/// Appends a space and a number.
fn print_entry(out: &mut Bytes, number: u32) -> Result<(), AllocError>
    ensures { OnOk result (Pushes out.old out.new (put_entry number)) }
{
    out.push(b' ')?;
    print_number(out, number)
}

/// Appends a count in decimal digits.
fn print_count(out: &mut Bytes, count: usize) -> Result<(), AllocError>
    ensures { OnOk result (out.new ≡ out.old ++ decimal count) }
{
    if count >= 10 {
        print_count(out, count / 10)?;
    }
    out.push(b'0' + (count % 10) as u8)
}

/// Appends the lines of each node.
fn print_nodes(out: &mut Bytes, nodes: &[Node]) -> Result<(), AllocError>
    ensures { OnOk result (Pushes out.old out.new (put_nodes (map said_node nodes.now))) }
{
    for node in nodes {
        print_node(out, node)?;
    }
    Ok(())
}

/// Appends the lines of a node.
fn print_node(out: &mut Bytes, node: &Node) -> Result<(), AllocError>
    ensures { OnOk result (Pushes out.old out.new (put_node (said_node node.now))) }
{
    match node {
        Node::Done => out.append(b"done\n"),
        Node::Alone => out.append(b"alone\n"),
        Node::Blocks(parts) => print_parts(out, parts.as_slice()),
        Node::Subterm { args, drop } => print_subterm(out, args.as_slice(), drop.as_slice()),
        Node::Poly(node) => print_interpretations(out, node),
        Node::Order(node) => print_order(out, node),
    }
}

/// Appends the lines of a node of interpretations.
fn print_interpretations(out: &mut Bytes, node: &PolyNode) -> Result<(), AllocError>
    ensures { OnOk result (Pushes out.old out.new (put_node (said_poly node.now))) }
{
    out.append(b"poly\n")?;
    print_usable(out, &node.usable)?;
    print_interps(out, b"fun ", node.funs.as_slice())?;
    print_interps(out, b"mark ", node.marks.as_slice())?;
    print_covers(out, b"rule", node.rules.as_slice())?;
    print_covers(out, b"pair", node.pairs.as_slice())?;
    out.append(b"drop")?;
    print_line(out, node.drop.as_slice())
}

/// Appends the line of the rules that are to be covered, where they are listed.
fn print_usable(out: &mut Bytes, usable: &Option<Numbers>) -> Result<(), AllocError>
    ensures { OnOk result (Pushes out.old out.new (put_usable usable.now)) }
{
    match usable {
        Some(numbers) => {
            out.append(b"usable")?;
            print_line(out, numbers.as_slice())
        }
        None => Ok(()),
    }
}

/// Appends the lines of a node of a path order.
fn print_order(out: &mut Bytes, node: &OrderNode) -> Result<(), AllocError>
    ensures { OnOk result (Pushes out.old out.new (put_node (said_order node.now))) }
{
    out.append(b"order\n")?;
    print_filters(out, b"fun ", node.funs.as_slice())?;
    print_filters(out, b"mark ", node.marks.as_slice())?;
    print_inferences(out, b"rule ", node.rules.as_slice())?;
    print_inferences(out, b"pair ", node.pairs.as_slice())?;
    out.append(b"drop")?;
    print_line(out, node.drop.as_slice())
}

/// Appends the lines of blocks.
fn print_parts(out: &mut Bytes, parts: &[Numbers]) -> Result<(), AllocError>
    ensures { OnOk result (Pushes out.old out.new (put_node (blocks parts.now))) }
{
    out.append(b"blocks ")?;
    print_count(out, parts.len())?;
    out.push(b'\n')?;
    print_blocks(out, parts)
}

/// Appends the line of each block.
fn print_blocks(out: &mut Bytes, parts: &[Numbers]) -> Result<(), AllocError>
    ensures { OnOk result (Pushes out.old out.new (put_blocks parts.now)) }
{
    for block in parts {
        print_block(out, block.as_slice())?;
    }
    Ok(())
}

/// Appends the line of a block.
fn print_block(out: &mut Bytes, block: &[u32]) -> Result<(), AllocError>
    ensures { OnOk result (Pushes out.old out.new (put_block block.now)) }
{
    out.append(b"block")?;
    print_line(out, block)
}

/// Appends the lines of a node that looks at an argument of each symbol.
fn print_subterm(out: &mut Bytes, args: &[Arg], drop: &[u32]) -> Result<(), AllocError>
    ensures { OnOk result (Pushes out.old out.new (put_node (subterm (map said_arg args.now) drop.now))) }
{
    out.append(b"subterm\n")?;
    print_args(out, args)?;
    out.append(b"drop")?;
    print_line(out, drop)
}

/// Appends the line of each argument that is looked at.
fn print_args(out: &mut Bytes, args: &[Arg]) -> Result<(), AllocError>
    ensures { OnOk result (Pushes out.old out.new (put_args (map said_arg args.now))) }
{
    for arg in args {
        print_arg(out, arg)?;
    }
    Ok(())
}

/// Appends the line of an argument that is looked at.
fn print_arg(out: &mut Bytes, arg: &Arg) -> Result<(), AllocError>
    ensures { OnOk result (Pushes out.old out.new (put_arg (said_arg arg.now))) }
{
    out.append(b"arg ")?;
    out.append(arg.name.bytes())?;
    out.push(b' ')?;
    print_number(out, arg.place)?;
    out.push(b'\n')
}

/// Appends the text of a NO certificate.
fn print_no(out: &mut Bytes, certificate: &NoCertificate) -> Result<(), AllocError>
    ensures { OnOk result (out.new ≡ out.old ++ text (said_no certificate.now)) }
{
    out.append(b"NO 1\nterm ")?;
    print_term(out, &certificate.term)?;
    out.push(b'\n')?;
    print_steps(out, certificate.steps.as_slice())?;
    out.append(b"at /")?;
    print_path(out, certificate.at.as_slice())?;
    out.push(b'\n')?;
    print_puts(out, certificate.puts.as_slice())?;
    out.append(b"end\n")
}

/// Appends the line of each step.
fn print_steps(out: &mut Bytes, steps: &[Step]) -> Result<(), AllocError>
    ensures { OnOk result (Pushes out.old out.new (put_steps steps.now)) }
{
    for step in steps {
        print_step(out, step)?;
    }
    Ok(())
}

/// Appends the line of a step.
fn print_step(out: &mut Bytes, step: &Step) -> Result<(), AllocError>
    ensures { OnOk result (Pushes out.old out.new (put_step step.now)) }
{
    out.append(b"step ")?;
    print_rule(out, step.rule)?;
    out.append(b" /")?;
    print_path(out, step.path.as_slice())?;
    out.push(b'\n')
}

/// Appends what a step applies.
fn print_rule(out: &mut Bytes, rule: Option<u32>) -> Result<(), AllocError>
    ensures { OnOk result (Pushes out.old out.new (put_rule rule)) }
{
    match rule {
        Some(number) => print_number(out, number),
        None => out.append(b"beta"),
    }
}

/// Appends a digit for each entry of a path.
fn print_path(out: &mut Bytes, path: &[u8]) -> Result<(), AllocError>
    requires { IsPath path.now }
    ensures { OnOk result (Pushes out.old out.new (put_path path.now)) }
{
    for entry in path {
        out.push(b'0' + *entry)?;
    }
    Ok(())
}

/// Appends the line of each term that is put for a variable.
fn print_puts(out: &mut Bytes, puts: &[Put]) -> Result<(), AllocError>
    ensures { OnOk result (Pushes out.old out.new (put_puts (map said_put puts.now))) }
{
    for put in puts {
        print_put(out, put)?;
    }
    Ok(())
}

/// Appends the line of a term that is put for a variable.
fn print_put(out: &mut Bytes, put: &Put) -> Result<(), AllocError>
    ensures { OnOk result (Pushes out.old out.new (put_put (said_put put.now))) }
{
    out.append(b"put %")?;
    print_number(out, put.number)?;
    out.push(b':')?;
    print_part(out, &put.kind)?;
    out.push(b' ')?;
    print_term(out, &put.term)?;
    out.push(b'\n')
}
