// Little-endian numbers and runs of bytes at a place of a byte slice. Every function is total: a
// byte past the end reads as zero, and a store past the end is dropped. Nothing is judged here.
#![tactic(auto)]

ghost use Rattle.std.specs.Prelude.{◌≡◌, [], ◌∷◌, ◌+◌, ◌-◌, ◌≤◌, ◌<◌, length, get_or, set, take, drop};
ghost use Rattle.std.proofs.lemmas.List.Edits.{sets};
ghost use Rattle.wire.specs.Numbers.{u16_at, u32_at, u64_at, digits};
ghost use Rattle.wire.specs.Output.{fitted};

// So many bytes are copied in runs of eight; more of them at once.
const MOST_IN_RUNS: usize = 64;

// Eight bytes that are copied together.
#[derive(Clone, Copy)]
struct Run {
    a: u8,
    b: u8,
    c: u8,
    d: u8,
    e: u8,
    f: u8,
    g: u8,
    h: u8,
}

// An output and the place in it stay two parameters here and above: each function of a struct that borrows the output
// would have to say besides that it keeps the borrow.

// One function for each width: of the wider ones each has its own short way, so a generic one would be no plainer.
pub fn byte_at(s: &[u8], at: usize) -> u8
    ensures { result ≡ get_or s.now at 0 }
{
    if at < s.len() { s[at] } else { 0 }
}

#[tactic(auto, using(crate::proofs::Laws::num_out, crate::proofs::Laws::two), unfolding(crate::specs::Numbers::u16_at))]
pub fn u16_at(s: &[u8], at: usize) -> u16
    ensures { result ≡ u16_at s.now at }
{
    if s.len() <= at {
        return 0;
    }
    let a = byte_at(s, at) as u16;
    let b = byte_at(s, at + 1) as u16;
    a + 256 * b
}

#[tactic(auto, using(crate::proofs::Laws::num_out, crate::proofs::Laws::four), unfolding(crate::specs::Numbers::u32_at))]
pub fn u32_at(s: &[u8], at: usize) -> u32
    ensures { result ≡ u32_at s.now at }
{
    if s.len() <= at {
        return 0;
    }
    if 4 <= s.len() - at {
        return four_at(s, at);
    }
    let a = byte_at(s, at) as u32;
    let b = byte_at(s, at + 1) as u32;
    let c = byte_at(s, at + 2) as u32;
    let d = byte_at(s, at + 3) as u32;
    a + 256 * (b + 256 * (c + 256 * d))
}

#[tactic(auto, using(crate::proofs::Laws::num_out, crate::proofs::Laws::eight), unfolding(crate::specs::Numbers::u64_at, crate::specs::Numbers::u32_at))]
pub fn u64_at(s: &[u8], at: usize) -> u64
    ensures { result ≡ u64_at s.now at }
{
    if s.len() <= at {
        return 0;
    }
    let low = u32_at(s, at) as u64;
    let high = u32_at(s, at + 4) as u64;
    low + 4294967296 * high
}

pub fn put_byte(out: &mut [u8], at: usize, v: u8)
    ensures { out.new ≡ set out.old at v }
{
    if at < out.len() {
        out[at] = v;
    }
}

pub fn put_u16(out: &mut [u8], at: usize, v: u16)
    ensures { out.new ≡ sets out.old at (digits 2 v) }
{
    if out.len() <= at {
        return;
    }
    put_byte(out, at, (v % 256) as u8);
    put_byte(out, at + 1, (v / 256 % 256) as u8);
}

pub fn put_u32(out: &mut [u8], at: usize, v: u32)
    ensures { out.new ≡ sets out.old at (digits 4 v) }
{
    put_low(out, at, v as u64);
}

pub fn put_u64(out: &mut [u8], at: usize, v: u64)
    ensures { out.new ≡ sets out.old at (digits 8 v) }
{
    if out.len() <= at {
        return;
    }
    put_low(out, at, v);
    put_low(out, at + 4, v / 256 / 256 / 256 / 256);
}

// The first n bytes of t, with zeros past its end.
#[tactic(auto, using(crate::proofs::Laws::sets_out, crate::proofs::Laws::run_past))]
pub fn put_run(out: &mut [u8], at: usize, t: &[u8], n: usize)
    ensures { out.new ≡ sets out.old at (fitted n t.now) }
{
    if out.len() <= at {
        return;
    }
    let room = out.len() - at;
    if room < n {
        put_fitting(out, at, t, room);
    } else {
        put_fitting(out, at, t, n);
    }
}

// All bytes of t.
pub fn put_bytes(out: &mut [u8], at: usize, t: &[u8])
    ensures { out.new ≡ sets out.old at t.now }
{
    if out.len() <= at {
        return;
    }
    let room = out.len() - at;
    if room < t.len() {
        copy(&mut out[at..], &t[..room]);
        return;
    }
    let n = t.len();
    let end = at + n;
    if MOST_IN_RUNS < n {
        copy_at_once(&mut out[at..end], &t[..n]);
        return;
    }
    copy_short(&mut out[at..end], &t[..n]);
}

// All of t, over an output of its length. put_bytes chooses for itself, so that a long piece goes straight
// to memmove. What goes on is a part of t, though it is all of it: a part is handed over in registers.
fn copy(out: &mut [u8], t: &[u8])
    requires { length out.old ≡ length t.now }
    ensures { out.new ≡ t.now }
{
    let n = t.len();
    if MOST_IN_RUNS < n {
        copy_at_once(out, &t[..n]);
        return;
    }
    copy_short(out, &t[..n]);
}

fn copy_short(out: &mut [u8], t: &[u8])
    requires { (length out.old ≡ length t.now) × (length t.now ≤ 64) }
    ensures { out.new ≡ t.now }
{
    let n = t.len();
    if n < 16 {
        copy_few(out, &t[..n]);
        return;
    }
    copy_in_runs(out, &t[..n]);
}

// A run at each end, or byte by byte what is too short for one. In one function with copy_in_runs the
// compiler would share the last stores of both, byte by byte.
fn copy_few(out: &mut [u8], t: &[u8])
    requires { (length out.old ≡ length t.now) × (length t.now < 16) }
    ensures { out.new ≡ t.now }
{
    let n = t.len();
    if n < 8 {
        put_each(out, 0, t, n);
        return;
    }
    put_eight(out, 0, eight_at(t, 0));
    put_eight(out, n - 8, eight_at(t, n - 8));
}

// Two runs at each end, and two more where they don't meet. A loop would cost what the runs save.
fn copy_in_runs(out: &mut [u8], t: &[u8])
    requires { (length out.old ≡ length t.now) × (16 ≤ length t.now) × (length t.now ≤ 64) }
    ensures { out.new ≡ t.now }
{
    put_ends(out, t, 0);
    if t.len() <= 32 {
        return;
    }
    put_ends(out, t, 16);
}

// The two runs that begin so many bytes behind the front, and the two that end as many before the end.
fn put_ends(out: &mut [u8], t: &[u8], inside: usize)
    requires { (length out.old ≡ length t.now) × (inside + 16 ≤ length t.now) }
    ensures { out.new ≡ sets (sets out.old inside (take 16 (drop inside t.now))) (length t.now - 16 - inside) (take 16 (drop (length t.now - 16 - inside) t.now)) }
{
    put_sixteen(out, inside, t);
    put_sixteen(out, t.len() - 16 - inside, t);
}

// Two runs, one behind the other, at one place of both. Both are loaded before one is stored: one load
// and one store where the processor has 16 bytes, though the compiler can't know that out and t lie apart.
fn put_sixteen(out: &mut [u8], at: usize, t: &[u8])
    requires { (at + 16 ≤ length out.old) × (at + 16 ≤ length t.now) }
    ensures { out.new ≡ sets out.old at (take 16 (drop at t.now)) }
{
    let first = eight_at(t, at);
    let second = eight_at(t, at + 8);
    put_eight(out, at, first);
    put_eight(out, at + 8, second);
}

fn eight_at(t: &[u8], at: usize) -> Run
    requires { at + 8 ≤ length t.now }
    ensures { (result.a ∷ result.b ∷ result.c ∷ result.d ∷ result.e ∷ result.f ∷ result.g ∷ result.h ∷ []) ≡ take 8 (drop at t.now) }
{
    Run {
        a: t[at],
        b: t[at + 1],
        c: t[at + 2],
        d: t[at + 3],
        e: t[at + 4],
        f: t[at + 5],
        g: t[at + 6],
        h: t[at + 7],
    }
}

fn put_eight(out: &mut [u8], at: usize, run: Run)
    requires { at + 8 ≤ length out.old }
    ensures { out.new ≡ sets out.old at (run.a ∷ run.b ∷ run.c ∷ run.d ∷ run.e ∷ run.f ∷ run.g ∷ run.h ∷ []) }
{
    out[at] = run.a;
    out[at + 1] = run.b;
    out[at + 2] = run.c;
    out[at + 3] = run.d;
    out[at + 4] = run.e;
    out[at + 5] = run.f;
    out[at + 6] = run.g;
    out[at + 7] = run.h;
}

// Through a block of its own, of which the compiler knows that it overlaps with neither: it makes one
// copy of the two, by memmove, and leaves out the block.
#[tactic(auto, using(crate::proofs::Laws::fitted_through, crate::proofs::Laws::fitted_all, crate::proofs::Laws::sets_all))]
fn copy_at_once(out: &mut [u8], t: &[u8])
    requires { length out.old ≡ length t.now }
    ensures { out.new ≡ t.now }
{
    let n = t.len();
    if 4096 < n {
        put_each(out, 0, t, n);
        return;
    }
    let mut block: [u8; 4096] = [0; 4096];
    put_each(&mut block, 0, t, n);
    put_each(out, 0, &block, n);
}

// The first n bytes of t, where they are there and have room, byte by byte: no test for each.
#[tactic(auto, using(crate::proofs::Laws::run_more), unfolding(crate::specs::Output::fitted))]
fn put_each(out: &mut [u8], at: usize, t: &[u8], n: usize)
    requires { (at + n ≤ length out.old) × (n ≤ length t.now) }
    ensures { out.new ≡ sets out.old at (fitted n t.now) }
{
    for i in 0..n {
        out[at + i] = t[i];
    }
}

// The first n bytes of t with zeros past its end, where they have room.
fn put_fitting(out: &mut [u8], at: usize, t: &[u8], n: usize)
    requires { at + n ≤ length out.old }
    ensures { out.new ≡ sets out.old at (fitted n t.now) }
{
    if n <= t.len() {
        let end = at + n;
        copy(&mut out[at..end], &t[..n]);
        return;
    }
    let end = at + t.len();
    copy(&mut out[at..end], t);
    put_zeros(out, end, n - t.len());
}

#[tactic(auto, using(crate::proofs::Laws::run_more), unfolding(crate::specs::Output::fitted))]
fn put_zeros(out: &mut [u8], at: usize, n: usize)
    requires { at + n ≤ length out.old }
    ensures { out.new ≡ sets out.old at (fitted n []) }
{
    for i in 0..n {
        out[at + i] = 0;
    }
}

fn wide(x: u8) -> u32
    ensures { (result ≡ x) × (result < 256) }
{
    x as u32
}

// Where all four bytes are there: one load.
#[tactic(auto, using(crate::proofs::Laws::four), unfolding(crate::specs::Numbers::u32_at))]
fn four_at(s: &[u8], at: usize) -> u32
    requires { at + 4 ≤ length s.now }
    ensures { result ≡ u32_at s.now at }
{
    let a = wide(s[at]);
    let b = wide(s[at + 1]);
    let c = wide(s[at + 2]);
    let d = wide(s[at + 3]);
    a + 256 * (b + 256 * (c + 256 * d))
}

// The four lowest bytes of v.
fn put_low(out: &mut [u8], at: usize, v: u64)
    ensures { out.new ≡ sets out.old at (digits 4 v) }
{
    if out.len() <= at {
        return;
    }
    if 4 <= out.len() - at {
        put_four(out, at, v);
        return;
    }
    put_byte(out, at, (v % 256) as u8);
    put_byte(out, at + 1, (v / 256 % 256) as u8);
    put_byte(out, at + 2, (v / 256 / 256 % 256) as u8);
    put_byte(out, at + 3, (v / 256 / 256 / 256 % 256) as u8);
}

// Where all four have room: one store.
fn put_four(out: &mut [u8], at: usize, v: u64)
    requires { at + 4 ≤ length out.old }
    ensures { out.new ≡ sets out.old at (digits 4 v) }
{
    out[at] = (v % 256) as u8;
    out[at + 1] = (v / 256 % 256) as u8;
    out[at + 2] = (v / 256 / 256 % 256) as u8;
    out[at + 3] = (v / 256 / 256 / 256 % 256) as u8;
}
