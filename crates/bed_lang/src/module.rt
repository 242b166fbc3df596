//! Modules, functions and statements.
ghost use Rattle.std.specs.Prelude.{◌≡◌, IfOk};
ghost use Rattle.bed_lang.specs.Same.{same_operand, same_op, same_rel, same_signature, same_predicate, same_import, same_function, same_module, same_place, same_test, same_hint, same_join, same_action};

use crate::logic::{Arg, Assertion, Bind, Pure};
use crate::statement::{Stmt, copy_body, same_body};
use crate::tree::{Tree, both, same_flags, three};
use crate::word::{Name, Seq, Word};
use sqlite_items::Items as List;
use std::alloc::{AllocError, Global};

/// An operand of a statement.
#[derive(Drop)]
pub enum Operand {
    /// A number from 0 to 4294967295.
    Number(u32),
    /// A local or an argument.
    Local(Name),
    /// The address of a function or an import, `&f`.
    Label(Name),
}

/// An operation on two words, modulo 2^32 or bit by bit.
#[derive(Clone, Copy, PartialEq, Eq)]
pub enum Op {
    Add,
    Sub,
    Mul,
    And,
    Or,
    Xor,
}

/// A comparison of two words, without sign.
#[derive(Clone, Copy, PartialEq, Eq)]
pub enum Rel {
    Equal,
    Unequal,
    Less,
    AtMost,
}

/// What a function asks of its caller and promises to it.
#[derive(Drop)]
pub struct Signature {
    pub name: Name,
    /// The parameters: words, with their values at entry.
    pub params: List<Name>,
    /// The words that its frame has beside the return address and the arguments.
    pub reserve: u32,
    /// The logical variables, which pre and post share.
    pub logical: List<Bind>,
    pub pre: Assertion,
    pub post: Assertion,
}

/// A predicate: it is true where one of its cases is.
#[derive(Drop)]
pub struct Predicate {
    pub name: Name,
    pub params: List<Bind>,
    pub cases: List<Assertion>,
}

/// A function that another module or the outside has.
#[derive(Drop)]
pub struct Import {
    pub name: Name,
    /// The name of its signature.
    pub signature: Name,
}

/// A function with its body.
#[derive(Drop)]
pub struct Function {
    pub name: Name,
    /// Whether it may be started from the outside and imported.
    pub exported: bool,
    /// The name of its signature.
    pub signature: Name,
    /// The locals beside the arguments.
    pub locals: List<Name>,
    pub body: List<Stmt>,
    /// The place of the closing brace.
    pub end: u32,
}

/// A module.
#[derive(Drop)]
pub struct Module {
    pub name: Name,
    pub signatures: List<Signature>,
    pub predicates: List<Predicate>,
    pub imports: List<Import>,
    pub functions: List<Function>,
}

/// A place in memory: an operand plus a displacement, modulo 2^32.
#[derive(Drop)]
pub struct Place {
    pub base: Operand,
    pub disp: u32,
}

/// A comparison of two operands.
#[derive(Drop)]
pub struct Test {
    /// The place of its first token.
    pub at: u32,
    pub rel: Rel,
    pub left: Operand,
    pub right: Operand,
}

/// A step of the proof that the text suggests to the search.
#[derive(Drop)]
pub enum Hint {
    /// Opens the first atom of the predicate, or the first whose first word argument is this one.
    Unfold(Name, Option<Word>),
    /// Closes a case of the predicate, by its number from 1, over these arguments.
    Fold(Name, List<Arg>, u32),
    /// Joins the list segment from this address with the one from its end.
    Append(Word),
    /// Divides the block at the first word after as many words as the second says.
    Divide(Word, Word),
    /// Joins the block at the first word with the one at the second.
    Merge(Word, Word),
    /// Takes the cell at this address as four bytes.
    Bytes(Word),
    /// Takes the four bytes from this address as a cell.
    Word(Word),
    /// Takes the block of one word at this address as a cell.
    Cell(Word),
    /// Takes the cell at this address as a block of one word.
    Uncell(Word),
    /// Takes away the block of no words at this address.
    Drop(Word),
    /// Proves a fact and goes on with it.
    Claim(Pure),
    /// Goes on with a fact, and apart from that with its negation.
    When(Pure),
    /// Names the value of an unknown of the next goal.
    Give(Name, Arg),
}

/// The assertion at which the bodies of an `if` meet.
#[derive(Drop)]
pub struct Join {
    /// The place of the token `join`.
    pub place: u32,
    pub assertion: Assertion,
}

/// One step of a path through a body.
#[derive(Drop)]
pub enum Action {
    Assign(Name, Operand),
    Compute(Name, Op, Operand, Operand),
    Load(Name, Place),
    LoadByte(Name, Place),
    Store(Place, Operand),
    StoreByte(Place, Operand),
    /// The test is true on this path.
    Assume(Test),
}

impl Op {
    /// Whether the two are the same.
    pub fn same(&self, other: &Op) -> bool
        ensures { result ≡ same_op self.now other.now }
    {
        match (self, other) {
            (Op::Add, Op::Add) => true,
            (Op::Sub, Op::Sub) => true,
            (Op::Mul, Op::Mul) => true,
            (Op::And, Op::And) => true,
            (Op::Or, Op::Or) => true,
            (Op::Xor, Op::Xor) => true,
            _ => false,
        }
    }
}

impl Rel {
    /// Whether the two are the same.
    pub fn same(&self, other: &Rel) -> bool
        ensures { result ≡ same_rel self.now other.now }
    {
        match (self, other) {
            (Rel::Equal, Rel::Equal) => true,
            (Rel::Unequal, Rel::Unequal) => true,
            (Rel::Less, Rel::Less) => true,
            (Rel::AtMost, Rel::AtMost) => true,
            _ => false,
        }
    }
}

impl Operand {
    /// A copy, equal to the original.
    ///
    /// # Errors
    /// `AllocError` for want of memory.
    pub fn copy(&self, alloc: Global) -> Result<Operand, AllocError>
        ensures { IfOk result (λ r. r ≡ self.now) }
    {
        match self {
            Operand::Number(a) => Ok(Operand::Number(*a)),
            Operand::Local(a) => Ok(Operand::Local(a.copy(alloc)?)),
            Operand::Label(a) => Ok(Operand::Label(a.copy(alloc)?)),
        }
    }

    /// Whether the two are the same, wherever they and their parts stand.
    pub fn same(&self, other: &Operand) -> bool
        ensures { result ≡ same_operand self.now other.now }
    {
        match (self, other) {
            (Operand::Number(a), Operand::Number(u)) => a == u,
            (Operand::Local(a), Operand::Local(u)) => a.same(u),
            (Operand::Label(a), Operand::Label(u)) => a.same(u),
            _ => false,
        }
    }
}

impl Signature {
    /// A copy, equal to the original.
    ///
    /// # Errors
    /// `AllocError` for want of memory.
    pub fn copy(&self, alloc: Global) -> Result<Signature, AllocError>
        ensures { IfOk result (λ r. r ≡ self.now) }
    {
        let heads = three(alloc, &self.name, &self.params, &self.logical)?;
        let (pre, post) = both(alloc, &self.pre, &self.post)?;
        let (name, params, logical) = heads;
        Ok(Signature {
            name,
            params,
            reserve: self.reserve,
            logical,
            pre,
            post,
        })
    }

    /// Whether the two are the same, wherever they and their parts stand.
    pub fn same(&self, other: &Signature) -> bool
        ensures { result ≡ same_signature self.now other.now }
    {
        self.name.same(&other.name)
            && self.params.same_as(&other.params)
            && self.reserve == other.reserve
            && self.logical.same_as(&other.logical)
            && self.pre.same(&other.pre)
            && self.post.same(&other.post)
    }
}

impl Predicate {
    /// A copy, equal to the original.
    ///
    /// # Errors
    /// `AllocError` for want of memory.
    pub fn copy(&self, alloc: Global) -> Result<Predicate, AllocError>
        ensures { IfOk result (λ r. r ≡ self.now) }
    {
        Ok(Predicate {
            name: self.name.copy(alloc)?,
            params: self.params.copied(alloc)?,
            cases: self.cases.copied(alloc)?,
        })
    }

    /// Whether the two are the same, wherever they and their parts stand.
    pub fn same(&self, other: &Predicate) -> bool
        ensures { result ≡ same_predicate self.now other.now }
    {
        self.name.same(&other.name)
            && self.params.same_as(&other.params)
            && self.cases.same_as(&other.cases)
    }
}

impl Import {
    /// A copy, equal to the original.
    ///
    /// # Errors
    /// `AllocError` for want of memory.
    pub fn copy(&self, alloc: Global) -> Result<Import, AllocError>
        ensures { IfOk result (λ r. r ≡ self.now) }
    {
        Ok(Import {
            name: self.name.copy(alloc)?,
            signature: self.signature.copy(alloc)?,
        })
    }

    /// Whether the two are the same, wherever they and their parts stand.
    pub fn same(&self, other: &Import) -> bool
        ensures { result ≡ same_import self.now other.now }
    {
        self.name.same(&other.name) && self.signature.same(&other.signature)
    }
}

impl Function {
    /// A copy, equal to the original.
    ///
    /// # Errors
    /// `AllocError` for want of memory.
    pub fn copy(&self, alloc: Global) -> Result<Function, AllocError>
        ensures { IfOk result (λ r. r ≡ self.now) }
    {
        Ok(Function {
            name: self.name.copy(alloc)?,
            exported: self.exported,
            signature: self.signature.copy(alloc)?,
            locals: self.locals.copied(alloc)?,
            body: copy_body(alloc, self.body.as_slice())?,
            end: self.end,
        })
    }

    /// Whether the two are the same, wherever they and their parts stand.
    pub fn same(&self, other: &Function) -> bool
        ensures { result ≡ same_function self.now other.now }
    {
        self.name.same(&other.name)
            && same_flags(self.exported, other.exported)
            && self.signature.same(&other.signature)
            && self.locals.same_as(&other.locals)
            && same_body(self.body.as_slice(), other.body.as_slice())
    }
}

impl Module {
    /// A copy, equal to the original.
    ///
    /// # Errors
    /// `AllocError` for want of memory.
    pub fn copy(&self, alloc: Global) -> Result<Module, AllocError>
        ensures { IfOk result (λ r. r ≡ self.now) }
    {
        Ok(Module {
            name: self.name.copy(alloc)?,
            signatures: self.signatures.copied(alloc)?,
            predicates: self.predicates.copied(alloc)?,
            imports: self.imports.copied(alloc)?,
            functions: self.functions.copied(alloc)?,
        })
    }

    /// Whether the two are the same, wherever they and their parts stand.
    pub fn same(&self, other: &Module) -> bool
        ensures { result ≡ same_module self.now other.now }
    {
        self.name.same(&other.name)
            && self.signatures.same_as(&other.signatures)
            && self.predicates.same_as(&other.predicates)
            && self.imports.same_as(&other.imports)
            && self.functions.same_as(&other.functions)
    }
}

impl Place {
    /// A copy, equal to the original.
    ///
    /// # Errors
    /// `AllocError` for want of memory.
    pub fn copy(&self, alloc: Global) -> Result<Place, AllocError>
        ensures { IfOk result (λ r. r ≡ self.now) }
    {
        Ok(Place {
            base: self.base.copy(alloc)?,
            disp: self.disp,
        })
    }

    /// Whether the two are the same, wherever they and their parts stand.
    pub fn same(&self, other: &Place) -> bool
        ensures { result ≡ same_place self.now other.now }
    {
        self.base.same(&other.base) && self.disp == other.disp
    }
}

impl Test {
    /// A copy, equal to the original.
    ///
    /// # Errors
    /// `AllocError` for want of memory.
    pub fn copy(&self, alloc: Global) -> Result<Test, AllocError>
        ensures { IfOk result (λ r. r ≡ self.now) }
    {
        Ok(Test {
            at: self.at,
            rel: self.rel,
            left: self.left.copy(alloc)?,
            right: self.right.copy(alloc)?,
        })
    }

    /// Whether the two are the same, wherever they and their parts stand.
    pub fn same(&self, other: &Test) -> bool
        ensures { result ≡ same_test self.now other.now }
    {
        self.rel.same(&other.rel) && self.left.same(&other.left) && self.right.same(&other.right)
    }
}

fn copy_hint_unfold(alloc: Global, a: &Name, b: &Option<Word>) -> Result<Hint, AllocError>
    ensures { IfOk result (λ r. r ≡ Hint.Unfold a.now b.now) }
{
    match both(alloc, a, b) {
        Err(e) => Err(e),
        Ok((a, b)) => Ok(Hint::Unfold(a, b)),
    }
}

fn copy_hint_divide(alloc: Global, a: &Word, b: &Word) -> Result<Hint, AllocError>
    ensures { IfOk result (λ r. r ≡ Hint.Divide a.now b.now) }
{
    match both(alloc, a, b) {
        Err(e) => Err(e),
        Ok((a, b)) => Ok(Hint::Divide(a, b)),
    }
}

fn copy_hint_merge(alloc: Global, a: &Word, b: &Word) -> Result<Hint, AllocError>
    ensures { IfOk result (λ r. r ≡ Hint.Merge a.now b.now) }
{
    match both(alloc, a, b) {
        Err(e) => Err(e),
        Ok((a, b)) => Ok(Hint::Merge(a, b)),
    }
}

fn copy_hint_give(alloc: Global, a: &Name, b: &Arg) -> Result<Hint, AllocError>
    ensures { IfOk result (λ r. r ≡ Hint.Give a.now b.now) }
{
    match both(alloc, a, b) {
        Err(e) => Err(e),
        Ok((a, b)) => Ok(Hint::Give(a, b)),
    }
}

fn copy_hint_fold(alloc: Global, a: &Name, b: &List<Arg>, c: u32) -> Result<Hint, AllocError>
    ensures { IfOk result (λ r. r ≡ Hint.Fold a.now b.now c) }
{
    match both(alloc, a, b) {
        Err(e) => Err(e),
        Ok((a, b)) => Ok(Hint::Fold(a, b, c)),
    }
}

impl Hint {
    /// A copy, equal to the original.
    ///
    /// # Errors
    /// `AllocError` for want of memory.
    pub fn copy(&self, alloc: Global) -> Result<Hint, AllocError>
        ensures { IfOk result (λ r. r ≡ self.now) }
    {
        match self {
            Hint::Unfold(a, b) => copy_hint_unfold(alloc, a, b),
            Hint::Fold(a, b, c) => copy_hint_fold(alloc, a, b, *c),
            Hint::Append(a) => Ok(Hint::Append(a.copy(alloc)?)),
            Hint::Divide(a, b) => copy_hint_divide(alloc, a, b),
            Hint::Merge(a, b) => copy_hint_merge(alloc, a, b),
            Hint::Bytes(a) => Ok(Hint::Bytes(a.copy(alloc)?)),
            Hint::Word(a) => Ok(Hint::Word(a.copy(alloc)?)),
            Hint::Cell(a) => Ok(Hint::Cell(a.copy(alloc)?)),
            Hint::Uncell(a) => Ok(Hint::Uncell(a.copy(alloc)?)),
            Hint::Drop(a) => Ok(Hint::Drop(a.copy(alloc)?)),
            Hint::Claim(a) => Ok(Hint::Claim(a.copy(alloc)?)),
            Hint::When(a) => Ok(Hint::When(a.copy(alloc)?)),
            Hint::Give(a, b) => copy_hint_give(alloc, a, b),
        }
    }

    /// Whether the two are the same, wherever they and their parts stand.
    pub fn same(&self, other: &Hint) -> bool
        ensures { result ≡ same_hint self.now other.now }
    {
        match (self, other) {
            (Hint::Unfold(a, b), Hint::Unfold(u, v)) => a.same(u) && b.same_as(v),
            (Hint::Fold(a, b, c), Hint::Fold(u, v, w)) => a.same(u) && b.same_as(v) && c == w,
            (Hint::Append(a), Hint::Append(u)) => a.same(u),
            (Hint::Divide(a, b), Hint::Divide(u, v)) => a.same(u) && b.same(v),
            (Hint::Merge(a, b), Hint::Merge(u, v)) => a.same(u) && b.same(v),
            (Hint::Bytes(a), Hint::Bytes(u)) => a.same(u),
            (Hint::Word(a), Hint::Word(u)) => a.same(u),
            (Hint::Cell(a), Hint::Cell(u)) => a.same(u),
            (Hint::Uncell(a), Hint::Uncell(u)) => a.same(u),
            (Hint::Drop(a), Hint::Drop(u)) => a.same(u),
            (Hint::Claim(a), Hint::Claim(u)) => a.same(u),
            (Hint::When(a), Hint::When(u)) => a.same(u),
            (Hint::Give(a, b), Hint::Give(u, v)) => a.same(u) && b.same(v),
            _ => false,
        }
    }
}

impl Join {
    /// A copy, equal to the original.
    ///
    /// # Errors
    /// `AllocError` for want of memory.
    pub fn copy(&self, alloc: Global) -> Result<Join, AllocError>
        ensures { IfOk result (λ r. r ≡ self.now) }
    {
        Ok(Join {
            place: self.place,
            assertion: self.assertion.copy(alloc)?,
        })
    }

    /// Whether the two are the same, wherever they and their parts stand.
    pub fn same(&self, other: &Join) -> bool
        ensures { result ≡ same_join self.now other.now }
    {
        self.assertion.same(&other.assertion)
    }
}

fn copy_action_assign(alloc: Global, a: &Name, b: &Operand) -> Result<Action, AllocError>
    ensures { IfOk result (λ r. r ≡ Action.Assign a.now b.now) }
{
    match both(alloc, a, b) {
        Err(e) => Err(e),
        Ok((a, b)) => Ok(Action::Assign(a, b)),
    }
}

fn copy_action_load(alloc: Global, a: &Name, b: &Place) -> Result<Action, AllocError>
    ensures { IfOk result (λ r. r ≡ Action.Load a.now b.now) }
{
    match both(alloc, a, b) {
        Err(e) => Err(e),
        Ok((a, b)) => Ok(Action::Load(a, b)),
    }
}

fn copy_action_load_byte(alloc: Global, a: &Name, b: &Place) -> Result<Action, AllocError>
    ensures { IfOk result (λ r. r ≡ Action.LoadByte a.now b.now) }
{
    match both(alloc, a, b) {
        Err(e) => Err(e),
        Ok((a, b)) => Ok(Action::LoadByte(a, b)),
    }
}

fn copy_action_store(alloc: Global, a: &Place, b: &Operand) -> Result<Action, AllocError>
    ensures { IfOk result (λ r. r ≡ Action.Store a.now b.now) }
{
    match both(alloc, a, b) {
        Err(e) => Err(e),
        Ok((a, b)) => Ok(Action::Store(a, b)),
    }
}

fn copy_action_store_byte(alloc: Global, a: &Place, b: &Operand) -> Result<Action, AllocError>
    ensures { IfOk result (λ r. r ≡ Action.StoreByte a.now b.now) }
{
    match both(alloc, a, b) {
        Err(e) => Err(e),
        Ok((a, b)) => Ok(Action::StoreByte(a, b)),
    }
}

fn copy_action_compute(
    alloc: Global,
    x: &Name,
    op: Op,
    a: &Operand,
    b: &Operand,
) -> Result<Action, AllocError>
    ensures { IfOk result (λ r. r ≡ Action.Compute x.now op a.now b.now) }
{
    match three(alloc, x, a, b) {
        Err(e) => Err(e),
        Ok((x, a, b)) => Ok(Action::Compute(x, op, a, b)),
    }
}

impl Action {
    /// A copy, equal to the original.
    ///
    /// # Errors
    /// `AllocError` for want of memory.
    pub fn copy(&self, alloc: Global) -> Result<Action, AllocError>
        ensures { IfOk result (λ r. r ≡ self.now) }
    {
        match self {
            Action::Assign(a, b) => copy_action_assign(alloc, a, b),
            Action::Compute(a, b, c, d) => copy_action_compute(alloc, a, *b, c, d),
            Action::Load(a, b) => copy_action_load(alloc, a, b),
            Action::LoadByte(a, b) => copy_action_load_byte(alloc, a, b),
            Action::Store(a, b) => copy_action_store(alloc, a, b),
            Action::StoreByte(a, b) => copy_action_store_byte(alloc, a, b),
            Action::Assume(a) => Ok(Action::Assume(a.copy(alloc)?)),
        }
    }

    /// Whether the two are the same, wherever they and their parts stand.
    pub fn same(&self, other: &Action) -> bool
        ensures { result ≡ same_action self.now other.now }
    {
        match (self, other) {
            (Action::Assign(a, b), Action::Assign(u, v)) => a.same(u) && b.same(v),
            (Action::Compute(a, b, c, d), Action::Compute(u, v, w, x)) => a.same(u)
                && b.same(v)
                && c.same(w)
                && d.same(x),
            (Action::Load(a, b), Action::Load(u, v)) => a.same(u) && b.same(v),
            (Action::LoadByte(a, b), Action::LoadByte(u, v)) => a.same(u) && b.same(v),
            (Action::Store(a, b), Action::Store(u, v)) => a.same(u) && b.same(v),
            (Action::StoreByte(a, b), Action::StoreByte(u, v)) => a.same(u) && b.same(v),
            (Action::Assume(a), Action::Assume(u)) => a.same(u),
            _ => false,
        }
    }
}

impl Tree for Operand {
    ghost alike = { same_operand };

    fn copied(&self, alloc: Global) -> Result<Operand, AllocError> {
        self.copy(alloc)
    }

    fn same_as(&self, other: &Operand) -> bool {
        self.same(other)
    }
}

impl Tree for Signature {
    ghost alike = { same_signature };

    fn copied(&self, alloc: Global) -> Result<Signature, AllocError> {
        self.copy(alloc)
    }

    fn same_as(&self, other: &Signature) -> bool {
        self.same(other)
    }
}

impl Tree for Predicate {
    ghost alike = { same_predicate };

    fn copied(&self, alloc: Global) -> Result<Predicate, AllocError> {
        self.copy(alloc)
    }

    fn same_as(&self, other: &Predicate) -> bool {
        self.same(other)
    }
}

impl Tree for Import {
    ghost alike = { same_import };

    fn copied(&self, alloc: Global) -> Result<Import, AllocError> {
        self.copy(alloc)
    }

    fn same_as(&self, other: &Import) -> bool {
        self.same(other)
    }
}

impl Tree for Function {
    ghost alike = { same_function };

    fn copied(&self, alloc: Global) -> Result<Function, AllocError> {
        self.copy(alloc)
    }

    fn same_as(&self, other: &Function) -> bool {
        self.same(other)
    }
}

impl Tree for Hint {
    ghost alike = { same_hint };

    fn copied(&self, alloc: Global) -> Result<Hint, AllocError> {
        self.copy(alloc)
    }

    fn same_as(&self, other: &Hint) -> bool {
        self.same(other)
    }
}

impl Tree for Join {
    ghost alike = { same_join };

    fn copied(&self, alloc: Global) -> Result<Join, AllocError> {
        self.copy(alloc)
    }

    fn same_as(&self, other: &Join) -> bool {
        self.same(other)
    }
}

impl Tree for Action {
    ghost alike = { same_action };

    fn copied(&self, alloc: Global) -> Result<Action, AllocError> {
        self.copy(alloc)
    }

    fn same_as(&self, other: &Action) -> bool {
        self.same(other)
    }
}

impl Tree for Place {
    ghost alike = { same_place };

    fn copied(&self, alloc: Global) -> Result<Place, AllocError> {
        self.copy(alloc)
    }

    fn same_as(&self, other: &Place) -> bool {
        self.same(other)
    }
}

impl Tree for Test {
    ghost alike = { same_test };

    fn copied(&self, alloc: Global) -> Result<Test, AllocError> {
        self.copy(alloc)
    }

    fn same_as(&self, other: &Test) -> bool {
        self.same(other)
    }
}
