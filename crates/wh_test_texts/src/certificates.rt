//! Texts of certificates, and the place of a fault as a text.

use std::alloc::AllocError;
use wh_text::print_number;
use wh_types::Bytes;

/// A loop of two rules.
pub const LOOP: &[u8] = b"NO 1\nterm a\nstep 0 /\nstep 1 /\nat /\nend\n";

/// A free variable, a path, and a term that is put for the variable.
pub const PUT: &[u8] = b"NO 1\nterm (g %0:o)\nstep 0 /\nat /10\nput %0:o %1:o\nend\n";

/// Ranks, an argument that is looked at, and a pair that is dropped.
pub const SUBTERM: &[u8] = b"YES 1\nranks 0 0\npairs 1\nsubterm\narg map 2\ndrop 0\ndone\nend\n";

/// Blocks, with a node for each.
pub const BLOCKS: &[u8] =
    b"YES 1\nranks 0\npairs 2\nblocks 2\nblock 0\nblock 1\nalone\nalone\nend\n";

/// Interpretations, with moves for a rule and for a pair.
pub const POLY: &[u8] =
    b"YES 1\nranks\npairs 1\npoly\nfun sort 0\nfun g 1+2*y0*y1(1*y0+1*y0*y2,0)+340282366920938463463374607431768211455*y65535\nmark g 3\nrule\nrule 0>65535:1 1>2:340282366920938463463374607431768211455\npair\ndrop 0 5\ndone\nend\n";

/// Filters, with inferences for rules and for a pair.
pub const ORDER: &[u8] =
    b"YES 2\nranks 0\npairs 1\norder\nfun f keep 1 1 2\nfun g keep 0\nmark f pick 65535\nrule =\nrule x1(s2(=),v,z65535())\npair p(l(m(=,v)),a(b(v)))\ndrop 0\ndone\nend\n";

/// Interpretations that list the rules that they cover, as version 2 has them.
pub const USABLE: &[u8] =
    b"YES 2\nranks\npairs 1\npoly\nusable 0 65535 10\nfun sort 0\nfun g 1+2*y0\nmark g 3\nrule\nrule 0>65535:1 1>2:3\npair\ndrop 0\ndone\nend\n";

/// The digits of a number.
pub fn add_place(out: &mut Bytes, number: u64) -> Result<(), AllocError> {
    match u32::try_from(number) {
        Ok(number) => print_number(out, number),
        Err(_) => Err(AllocError),
    }
}
