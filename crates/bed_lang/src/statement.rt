//! Statements.
ghost use Rattle.std.specs.Prelude.{◌≡◌, ◌&&◌, map, IfOk};
ghost use Rattle.bed_lang.specs.Same.{same_kind, same_stmt, accepts_all, same_call, same_list_head};

use crate::logic::Assertion;
use crate::module::{Hint, Join, Op, Operand, Place, Test};
use crate::tree::{Tree, both, four, three};
use crate::word::{Name, Seq};
use sqlite_items::Items as List;
use std::alloc::{AllocError, Global};

/// A statement with the place of its first token.
#[cycle(statement)]
#[derive(Drop)]
pub struct Stmt {
    pub at: u32,
    pub kind: StmtKind,
}

/// What a statement does.
#[cycle(statement)]
#[derive(Drop)]
pub enum StmtKind {
    /// `x <- a;`
    Assign(Name, Operand),
    /// `x <- a op b;`
    Compute(Name, Op, Operand, Operand),
    /// `x <- [a + k];`
    Load(Name, Place),
    /// `x <- byte [a + k];`
    LoadByte(Name, Place),
    /// `[a + k] <- b;`
    Store(Place, Operand),
    /// `byte [a + k] <- b;`
    StoreByte(Place, Operand),
    /// `x <- call t(a, b) using hints after assertion;`
    Call {
        /// The place of the token `call`.
        place: u32,
        into: Name,
        target: Operand,
        /// The name of the callee's signature, for a target that is a local.
        via: Option<Name>,
        args: List<Operand>,
        hints: List<Hint>,
        after: Assertion,
    },
    /// `if test { yes } else { no } join assertion;`
    If {
        test: Test,
        yes: List<Stmt>,
        no: List<Stmt>,
        join: Option<Join>,
    },
    /// `while test invariant assertion { body }`
    While {
        test: Test,
        /// The place of the token `invariant`.
        place: u32,
        invariant: Assertion,
        body: List<Stmt>,
    },
    /// `return a;`
    Return(Operand),
    /// `hint h;`
    Hint(Hint),
    /// `find node, value for key in list of seq as seen, rest keep assertion { body }`
    Find {
        node: Name,
        value: Name,
        key: Operand,
        list: Name,
        seq: Seq,
        seen: Name,
        rest: Name,
        keep: Assertion,
        body: List<Stmt>,
    },
    /// `walk node, value in list of seq as seen, rest keep assertion { body }`
    Walk {
        node: Name,
        value: Name,
        list: Name,
        seq: Seq,
        seen: Name,
        rest: Name,
        keep: Assertion,
        body: List<Stmt>,
    },
}

impl Stmt {
    /// A copy, equal to the original.
    ///
    /// # Errors
    /// `AllocError` for want of memory.
    #[cycle(copy)]
    pub fn copy(&self, alloc: Global) -> Result<Stmt, AllocError>
        ensures { IfOk result (λ r. r ≡ self.now) }
    {
        Ok(Stmt {
            at: self.at,
            kind: self.kind.copy(alloc)?,
        })
    }

    /// Whether the two are the same, wherever they and their parts stand.
    #[cycle(same)]
    pub fn same(&self, other: &Stmt) -> bool
        ensures { result ≡ same_stmt self.now other.now }
    {
        self.kind.same(&other.kind)
    }
}

/// A copy of a list of statements, equal to it.
#[cycle(copy)]
pub(crate) fn copy_body(alloc: Global, body: &[Stmt]) -> Result<List<Stmt>, AllocError>
    ensures { IfOk result (λ r. r ≡ body.now) }
{
    let mut out = List::new(alloc);
    for item in body {
        out.push(item.copy(alloc)?)?;
    }
    Ok(out)
}

/// Whether two lists of statements are the same, wherever they and their parts stand.
#[cycle(same)]
pub(crate) fn same_body(a: &[Stmt], b: &[Stmt]) -> bool
    ensures { result ≡ accepts_all (map same_stmt a.now) b.now }
{
    let mut rest = b;
    for x in a {
        let [y, ys @ ..] = rest else {
            return false;
        };
        if !x.same(y) {
            return false;
        }
        rest = ys;
    }
    rest.is_empty()
}

/// A copy of a call.
fn copy_call(
    alloc: Global,
    place: u32,
    into: &Name,
    target: &Operand,
    via: &Option<Name>,
    args: &List<Operand>,
    hints: &List<Hint>,
    after: &Assertion,
) -> Result<StmtKind, AllocError>
    ensures { IfOk result (λ r. r ≡ StmtKind.Call place into.now target.now via.now args.now hints.now after.now) }
{
    let heads = three(alloc, into, target, via)?;
    let (args, hints, after) = three(alloc, args, hints, after)?;
    let (into, target, via) = heads;
    Ok(StmtKind::Call {
        place,
        into,
        target,
        via,
        args,
        hints,
        after,
    })
}

fn copy_kind_assign(alloc: Global, a: &Name, b: &Operand) -> Result<StmtKind, AllocError>
    ensures { IfOk result (λ r. r ≡ StmtKind.Assign a.now b.now) }
{
    match both(alloc, a, b) {
        Err(e) => Err(e),
        Ok((a, b)) => Ok(StmtKind::Assign(a, b)),
    }
}

fn copy_kind_load(alloc: Global, a: &Name, b: &Place) -> Result<StmtKind, AllocError>
    ensures { IfOk result (λ r. r ≡ StmtKind.Load a.now b.now) }
{
    match both(alloc, a, b) {
        Err(e) => Err(e),
        Ok((a, b)) => Ok(StmtKind::Load(a, b)),
    }
}

fn copy_kind_load_byte(alloc: Global, a: &Name, b: &Place) -> Result<StmtKind, AllocError>
    ensures { IfOk result (λ r. r ≡ StmtKind.LoadByte a.now b.now) }
{
    match both(alloc, a, b) {
        Err(e) => Err(e),
        Ok((a, b)) => Ok(StmtKind::LoadByte(a, b)),
    }
}

fn copy_kind_store(alloc: Global, a: &Place, b: &Operand) -> Result<StmtKind, AllocError>
    ensures { IfOk result (λ r. r ≡ StmtKind.Store a.now b.now) }
{
    match both(alloc, a, b) {
        Err(e) => Err(e),
        Ok((a, b)) => Ok(StmtKind::Store(a, b)),
    }
}

fn copy_kind_store_byte(alloc: Global, a: &Place, b: &Operand) -> Result<StmtKind, AllocError>
    ensures { IfOk result (λ r. r ≡ StmtKind.StoreByte a.now b.now) }
{
    match both(alloc, a, b) {
        Err(e) => Err(e),
        Ok((a, b)) => Ok(StmtKind::StoreByte(a, b)),
    }
}

fn copy_kind_compute(
    alloc: Global,
    x: &Name,
    op: Op,
    a: &Operand,
    b: &Operand,
) -> Result<StmtKind, AllocError>
    ensures { IfOk result (λ r. r ≡ StmtKind.Compute x.now op a.now b.now) }
{
    match three(alloc, x, a, b) {
        Err(e) => Err(e),
        Ok((x, a, b)) => Ok(StmtKind::Compute(x, op, a, b)),
    }
}

impl StmtKind {
    /// A copy, equal to the original.
    ///
    /// # Errors
    /// `AllocError` for want of memory.
    #[cycle(copy)]
    pub fn copy(&self, alloc: Global) -> Result<StmtKind, AllocError>
        ensures { IfOk result (λ r. r ≡ self.now) }
    {
        match self {
            StmtKind::Assign(x, a) => copy_kind_assign(alloc, x, a),
            StmtKind::Compute(x, op, a, b) => copy_kind_compute(alloc, x, *op, a, b),
            StmtKind::Load(x, p) => copy_kind_load(alloc, x, p),
            StmtKind::LoadByte(x, p) => copy_kind_load_byte(alloc, x, p),
            StmtKind::Store(p, a) => copy_kind_store(alloc, p, a),
            StmtKind::StoreByte(p, a) => copy_kind_store_byte(alloc, p, a),
            StmtKind::Call {
                place,
                into,
                target,
                via,
                args,
                hints,
                after,
            } => { copy_call(alloc, *place, into, target, via, args, hints, after) }
            StmtKind::If {
                test,
                yes,
                no,
                join,
            } => {
                let yes = copy_body(alloc, yes.as_slice())?;
                let no = copy_body(alloc, no.as_slice())?;
                copy_if(alloc, test, yes, no, join)
            }
            StmtKind::While {
                test,
                place,
                invariant,
                body,
            } => {
                let body = copy_body(alloc, body.as_slice())?;
                copy_while(alloc, test, *place, invariant, body)
            }
            StmtKind::Return(a) => Ok(StmtKind::Return(a.copy(alloc)?)),
            StmtKind::Hint(h) => Ok(StmtKind::Hint(h.copy(alloc)?)),
            StmtKind::Find {
                node,
                value,
                key,
                list,
                seq,
                seen,
                rest,
                keep,
                body,
            } => {
                let body = copy_body(alloc, body.as_slice())?;
                copy_find(alloc, node, value, key, list, seq, seen, rest, keep, body)
            }
            StmtKind::Walk {
                node,
                value,
                list,
                seq,
                seen,
                rest,
                keep,
                body,
            } => {
                let body = copy_body(alloc, body.as_slice())?;
                copy_walk(alloc, node, value, list, seq, seen, rest, keep, body)
            }
        }
    }

    /// Whether the two are the same, wherever they and their parts stand.
    #[cycle(same)]
    pub fn same(&self, other: &StmtKind) -> bool
        ensures { result ≡ same_kind self.now other.now }
    {
        match (self, other) {
            (StmtKind::Assign(x, a), StmtKind::Assign(y, b)) => x.same(y) && a.same(b),
            (StmtKind::Compute(x, o, a, b), StmtKind::Compute(y, p, c, d)) => {
                x.same(y) && o.same(p) && a.same(c) && b.same(d)
            }
            (StmtKind::Load(x, a), StmtKind::Load(y, b)) => x.same(y) && a.same(b),
            (StmtKind::LoadByte(x, a), StmtKind::LoadByte(y, b)) => x.same(y) && a.same(b),
            (StmtKind::Store(a, b), StmtKind::Store(c, d)) => a.same(c) && b.same(d),
            (StmtKind::StoreByte(a, b), StmtKind::StoreByte(c, d)) => a.same(c) && b.same(d),
            (
                StmtKind::Call {
                    into: x,
                    target: t,
                    via: v,
                    args: xs,
                    hints: hs,
                    after: a,
                    ..
                },
                StmtKind::Call {
                    into: y,
                    target: u,
                    via: w,
                    args: ys,
                    hints: ks,
                    after: b,
                    ..
                },
            ) => same_calls(x, t, v, xs, hs, a, y, u, w, ys, ks, b),
            (
                StmtKind::If {
                    test: s,
                    yes: a,
                    no: b,
                    join: i,
                },
                StmtKind::If {
                    test: t,
                    yes: c,
                    no: d,
                    join: j,
                },
            ) => {
                s.same(t)
                    && same_body(a.as_slice(), c.as_slice())
                    && same_body(b.as_slice(), d.as_slice())
                    && i.same_as(j)
            }
            (
                StmtKind::While {
                    test: s,
                    invariant: a,
                    body: b,
                    ..
                },
                StmtKind::While {
                    test: t,
                    invariant: c,
                    body: d,
                    ..
                },
            ) => s.same(t) && a.same(c) && same_body(b.as_slice(), d.as_slice()),
            (StmtKind::Return(a), StmtKind::Return(b)) => a.same(b),
            (StmtKind::Hint(a), StmtKind::Hint(b)) => a.same(b),
            (
                StmtKind::Find {
                    node: n,
                    value: v,
                    key: k,
                    list: p,
                    seq: s,
                    seen: u,
                    rest: t,
                    keep: a,
                    body: b,
                },
                StmtKind::Find {
                    node: m,
                    value: w,
                    key: l,
                    list: q,
                    seq: z,
                    seen: x,
                    rest: y,
                    keep: c,
                    body: d,
                },
            ) => {
                same_list_heads(n, v, p, s, u, t, a, m, w, q, z, x, y, c)
                    && k.same(l)
                    && same_body(b.as_slice(), d.as_slice())
            }
            (
                StmtKind::Walk {
                    node: n,
                    value: v,
                    list: p,
                    seq: s,
                    seen: u,
                    rest: t,
                    keep: a,
                    body: b,
                },
                StmtKind::Walk {
                    node: m,
                    value: w,
                    list: q,
                    seq: z,
                    seen: x,
                    rest: y,
                    keep: c,
                    body: d,
                },
            ) => {
                same_list_heads(n, v, p, s, u, t, a, m, w, q, z, x, y, c)
                    && same_body(b.as_slice(), d.as_slice())
            }
            _ => false,
        }
    }
}

fn same_calls(
    x: &Name,
    t: &Operand,
    v: &Option<Name>,
    xs: &List<Operand>,
    hs: &List<Hint>,
    a: &Assertion,
    y: &Name,
    u: &Operand,
    w: &Option<Name>,
    ys: &List<Operand>,
    ks: &List<Hint>,
    b: &Assertion,
) -> bool
    ensures { result ≡ same_call x.now t.now v.now xs.now hs.now a.now y.now u.now w.now ys.now ks.now b.now }
{
    x.same(y) && t.same(u) && v.same_as(w) && xs.same_as(ys) && hs.same_as(ks) && a.same(b)
}

fn same_list_heads(
    n: &Name,
    v: &Name,
    p: &Name,
    s: &Seq,
    u: &Name,
    t: &Name,
    a: &Assertion,
    m: &Name,
    w: &Name,
    q: &Name,
    z: &Seq,
    x: &Name,
    y: &Name,
    b: &Assertion,
) -> bool
    ensures { result ≡ same_list_head n.now v.now p.now s.now u.now t.now a.now m.now w.now q.now z.now x.now y.now b.now }
{
    n.same(m) && v.same(w) && p.same(q) && s.same(z) && u.same(x) && t.same(y) && a.same(b)
}

fn copy_if(
    alloc: Global,
    test: &Test,
    yes: List<Stmt>,
    no: List<Stmt>,
    join: &Option<Join>,
) -> Result<StmtKind, AllocError>
    ensures { IfOk result (λ r. r ≡ StmtKind.If test.now yes no join.now) }
{
    let (test, join) = both(alloc, test, join)?;
    Ok(StmtKind::If {
        test,
        yes,
        no,
        join,
    })
}

fn copy_while(
    alloc: Global,
    test: &Test,
    place: u32,
    invariant: &Assertion,
    body: List<Stmt>,
) -> Result<StmtKind, AllocError>
    ensures { IfOk result (λ r. r ≡ StmtKind.While test.now place invariant.now body) }
{
    let (test, invariant) = both(alloc, test, invariant)?;
    Ok(StmtKind::While {
        test,
        place,
        invariant,
        body,
    })
}

fn copy_find(
    alloc: Global,
    node: &Name,
    value: &Name,
    key: &Operand,
    list: &Name,
    seq: &Seq,
    seen: &Name,
    rest: &Name,
    keep: &Assertion,
    body: List<Stmt>,
) -> Result<StmtKind, AllocError>
    ensures { IfOk result (λ r. r ≡ StmtKind.Find node.now value.now key.now list.now seq.now seen.now rest.now keep.now body) }
{
    let heads = four(alloc, node, value, key, list)?;
    let ((seq, seen), (rest, keep)) = four(alloc, seq, seen, rest, keep)?;
    let ((node, value), (key, list)) = heads;
    Ok(StmtKind::Find {
        node,
        value,
        key,
        list,
        seq,
        seen,
        rest,
        keep,
        body,
    })
}

fn copy_walk(
    alloc: Global,
    node: &Name,
    value: &Name,
    list: &Name,
    seq: &Seq,
    seen: &Name,
    rest: &Name,
    keep: &Assertion,
    body: List<Stmt>,
) -> Result<StmtKind, AllocError>
    ensures { IfOk result (λ r. r ≡ StmtKind.Walk node.now value.now list.now seq.now seen.now rest.now keep.now body) }
{
    let heads = three(alloc, node, value, list)?;
    let ((seq, seen), (rest, keep)) = four(alloc, seq, seen, rest, keep)?;
    let (node, value, list) = heads;
    Ok(StmtKind::Walk {
        node,
        value,
        list,
        seq,
        seen,
        rest,
        keep,
        body,
    })
}
