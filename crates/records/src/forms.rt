//! The byte form of each record kind.
ghost use Rattle.std.specs.Prelude.{◌≡◌, ℕ, ◌<◌, ◌&&◌, List, [], ◌∷◌, length, Some, ◌==◌, nat_lt, slice_index, slice_index_or};
ghost use Rattle.std.proofs.Common.{sym, ap, rules, arith};
ghost use Rattle.records.specs.Forms.{link_form, link_of, route_form, route_of, route_in, task_form, task_of, task_in, TaskFits};
ghost use Rattle.records.specs.Forms.{message_form, message_of, message_in, MessageFits};
ghost use Rattle.records.specs.Unique.{list_is, chosen, same_bytes};
ghost use Rattle.std.proofs.lemmas.Bool.Decides.{nat_tests};
ghost use Rattle.records.specs.Bytes.{be, bytes_of};

use crate::kind::Kind;
use crate::record::{Canonical, Link, Message, Record, Route, Task};

impl Record for Link {
    const SIZE: usize = 2;

    ghost SIZE = { 2 };

    ghost form = { link_form };

    ghost parsed = { link_of };

    ghost sound = { λ _. Unit {0} };

    ghost long = { Prim.search rules };

    ghost some = { Prim.search rules };

    ghost back = { Prim.search rules };

    fn read(bytes: &[u8]) -> Option<Link> {
        Some(Link {
            from: bytes[0],
            to: bytes[1],
        })
    }

    fn write(&self, out: &mut [u8]) {
        out.copy_from_slice(&[self.from, self.to]);
    }
}

impl Canonical for Link {
    ghost only = { λ bs x long bytes e. cc (list_is 2 bs long) };
}

impl Record for Route {
    const SIZE: usize = 16;

    ghost SIZE = { 16 };

    ghost form = { route_form };

    ghost parsed = { route_of };

    ghost sound = { λ r. length r.links ≡ 12 };

    ghost long = { Prim.search rules };

    ghost some = { Prim.search rules };

    ghost back = { λ x sound. ap (λ l. Some (record x { links = l })) (sym (list_is 12 x.links sound)) };

    fn read(bytes: &[u8]) -> Option<Route> {
        let [from, to, length, 0, links @ ..] = bytes else {
            return None;
        };
        Some(Route {
            from: *from,
            to: *to,
            length: *length,
            links: links.try_into().ok()?,
        })
    }

    fn write(&self, out: &mut [u8]) {
        let (ends, links) = out.split_at_mut(4);
        ends.copy_from_slice(&[self.from, self.to, self.length, 0]);
        links.copy_from_slice(&self.links);
    }
}

impl Canonical for Route {
    ghost only = { λ bs x long bytes e.
        let (zero-byte, same) = chosen (slice_index bs 3 == 0) (route_in bs) x e in
        let zero : slice_index_or bs 3 0 ≡ 0 = Prim.grind (arith, nat_tests, zero-byte) in
        cc (same, list_is 16 bs long, zero) };
}

impl Record for Task {
    const SIZE: usize = 16;

    ghost SIZE = { 16 };

    ghost form = { task_form };

    ghost parsed = { task_of };

    ghost sound = { TaskFits };

    ghost long = { Prim.search rules };

    ghost some = { Prim.search rules };

    ghost back = { Prim.search rules };

    fn read(bytes: &[u8]) -> Option<Task> {
        let [
            n0,
            n1,
            core,
            0,
            p0,
            p1,
            p2,
            p3,
            f0,
            f1,
            f2,
            f3,
            w0,
            w1,
            w2,
            w3,
        ] = bytes
        else {
            return None;
        };
        Some(Task {
            name: u16::from_be_bytes([*n0, *n1]),
            core: *core,
            period: u32::from_be_bytes([*p0, *p1, *p2, *p3]),
            phase: u32::from_be_bytes([*f0, *f1, *f2, *f3]),
            width: u32::from_be_bytes([*w0, *w1, *w2, *w3]),
        })
    }

    fn write(&self, out: &mut [u8]) {
        let [n0, n1] = self.name.to_be_bytes();
        let [p0, p1, p2, p3] = self.period.to_be_bytes();
        let [f0, f1, f2, f3] = self.phase.to_be_bytes();
        let [w0, w1, w2, w3] = self.width.to_be_bytes();
        out.copy_from_slice(&[
            n0, n1, self.core, 0, p0, p1, p2, p3, f0, f1, f2, f3, w0, w1, w2, w3,
        ]);
    }
}

impl Canonical for Task {
    ghost only = { λ bs x long bytes e.
        let (zero-byte, same) = chosen (slice_index bs 3 == 0) (task_in bs) x e in
        let zero : slice_index_or bs 3 0 ≡ 0 = Prim.grind (arith, nat_tests, zero-byte) in
        let w = same_bytes 4 bs 12 [] bytes in
        let f = same_bytes 4 bs 8 (bytes_of 4 (be 4 bs 12) []) bytes in
        let p = same_bytes 4 bs 4 (bytes_of 4 (be 4 bs 8) (bytes_of 4 (be 4 bs 12) [])) bytes in
        let after : List ℕ = bytes_of 4 (be 4 bs 4) (bytes_of 4 (be 4 bs 8) (bytes_of 4 (be 4 bs 12) [])) in
        let n = same_bytes 2 bs 0 (slice_index bs 2 ∷ 0 ∷ after) bytes in
        cc (same, list_is 16 bs long, zero, n, p, f, w) };
}

impl Record for Message {
    const SIZE: usize = 16;

    ghost SIZE = { 16 };

    ghost form = { message_form };

    ghost parsed = { message_of };

    ghost sound = { MessageFits };

    ghost long = { Prim.search rules };

    ghost some = { Prim.search rules };

    ghost back = { Prim.search rules };

    fn read(bytes: &[u8]) -> Option<Message> {
        let [
            n0,
            n1,
            s0,
            s1,
            t0,
            t1,
            kind,
            0,
            d0,
            d1,
            d2,
            d3,
            w0,
            w1,
            w2,
            w3,
        ] = bytes
        else {
            return None;
        };
        Kind::try_from(*kind).ok()?;
        Some(Message {
            name: u16::from_be_bytes([*n0, *n1]),
            source: u16::from_be_bytes([*s0, *s1]),
            destination: u16::from_be_bytes([*t0, *t1]),
            kind: *kind,
            delay: u32::from_be_bytes([*d0, *d1, *d2, *d3]),
            width: u32::from_be_bytes([*w0, *w1, *w2, *w3]),
        })
    }

    fn write(&self, out: &mut [u8]) {
        let [n0, n1] = self.name.to_be_bytes();
        let [s0, s1] = self.source.to_be_bytes();
        let [t0, t1] = self.destination.to_be_bytes();
        let [d0, d1, d2, d3] = self.delay.to_be_bytes();
        let [w0, w1, w2, w3] = self.width.to_be_bytes();
        out.copy_from_slice(&[
            n0, n1, s0, s1, t0, t1, self.kind, 0, d0, d1, d2, d3, w0, w1, w2, w3,
        ]);
    }
}

impl Canonical for Message {
    ghost only = { λ bs x long bytes e.
        let (tested, same) = chosen (nat_lt (slice_index bs 6) 2 && slice_index bs 7 == 0) (message_in bs) x e in
        let zero : slice_index_or bs 7 0 ≡ 0 = Prim.grind (arith, nat_tests, tested) in
        let w = same_bytes 4 bs 12 [] bytes in
        let d = same_bytes 4 bs 8 (bytes_of 4 (be 4 bs 12) []) bytes in
        let after : List ℕ = slice_index bs 6 ∷ 0 ∷ bytes_of 4 (be 4 bs 8) (bytes_of 4 (be 4 bs 12) []) in
        let t = same_bytes 2 bs 4 after bytes in
        let s = same_bytes 2 bs 2 (bytes_of 2 (be 2 bs 4) after) bytes in
        let n = same_bytes 2 bs 0 (bytes_of 2 (be 2 bs 2) (bytes_of 2 (be 2 bs 4) after)) bytes in
        cc (same, list_is 16 bs long, zero, n, s, t, d, w) };
}
