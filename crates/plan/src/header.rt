// The eleven numbers of a plan's header.
ghost use Rattle.std.specs.Prelude.{◌≡◌, ◌≤◌, length};
ghost use Rattle.plan.specs.Header.{header_length, header_of, ruled, Small};

use layout::number::u16_at;

// How many bytes a header has: one name, since a later format has another.
pub const LENGTH: usize = 22;

#[derive(Clone, Copy)]
pub struct Header {
    pub n1: usize,
    pub n2: usize,
    pub b1: usize,
    pub b2: usize,
    pub rv: usize,
    pub rh: usize,
    pub rows: usize,
    pub columns: usize,
    pub checks: usize,
    pub total: usize,
    pub t: usize,
}

// The header of a plan that has one. Others look at it through a view.
pub(crate) fn read(plan: &[u8]) -> Header
    requires { header_length ≤ length plan.now }
    ensures { result ≡ header_of plan.now }
{
    Header {
        n1: u16_at(plan, 0),
        n2: u16_at(plan, 2),
        b1: u16_at(plan, 4),
        b2: u16_at(plan, 6),
        rv: u16_at(plan, 8),
        rh: u16_at(plan, 10),
        rows: u16_at(plan, 12),
        columns: u16_at(plan, 14),
        checks: u16_at(plan, 16),
        total: u16_at(plan, 18),
        t: u16_at(plan, 20),
    }
}

// The header with the seven numbers of h, and its places and length by the rule: the one place where the rule is computed.
pub fn ruled(h: Header) -> Header
    requires { Small h }
    ensures { result ≡ ruled h }
{
    let columns = LENGTH + 4 * (h.n1 * h.b2);
    let checks = columns + 4 * (h.n2 * h.b1);
    Header {
        n1: h.n1,
        n2: h.n2,
        b1: h.b1,
        b2: h.b2,
        rv: h.rv,
        rh: h.rh,
        rows: LENGTH,
        columns,
        checks,
        total: checks + 4 * (h.rv + h.rh),
        t: h.t,
    }
}
