// What a frame does with an item that is given to it, as references to the tree and the values that it keeps.
ghost use Rattle.std.specs.Prelude.{◌≡◌, IfOk, map};
ghost use Rattle.jq_ast.specs.Named.{named};
ghost use Rattle.jq_meaning.specs.machine.Matching as machine;
ghost use Rattle.jq_meaning.specs.machine.State.{Scope};
ghost use Rattle.jq_state.specs.Steps.{operation_of, selecting_in, combining_in, making_in, binding_in, holding_in, step_in, task_of, binder_of, fold_of};

use crate::items::Item;
use jq_ast::{Entry, Key, Member, Name, Operator, Pattern, Piece, Tree};
use jq_natives::Native;
use jv_data::{Array, NoMemory, Object, SharedText, Val};
use std::alloc::Global;

/// What turns an item into a run at once. The `bool` says whether a `?` follows the step.
#[derive(Drop)]
pub enum Operation<'p> {
    Field(&'p Key, bool),
    PartAtKey(bool, Val),
    EveryPart(bool),
    /// An operator with its right operand.
    Operate(Operator, Val),
    ToTruth,
    Negate,
    PathValue,
    Refuse,
}

/// Steps to a part of what a filter returns: the target, then what is kept.
#[derive(Drop)]
pub enum Selecting<'p> {
    /// Waits for the key.
    TargetKey(&'p Tree, bool, Item),
    /// Waits for the start; the end is evaluated after it.
    SliceStart(&'p Tree, &'p Tree, bool, Item),
    /// Waits for the end; the start is known.
    SliceEnd(&'p Tree, Val, bool, Item),
}

/// Filters that wait for the value of another one, and the input.
#[derive(Drop)]
pub enum Combining<'p> {
    PipeInto(&'p Tree),
    RightOperand(Operator, &'p Tree, Item),
    Conjunct(&'p Tree, Item),
    Disjunct(&'p Tree, Item),
    Test(&'p Tree, &'p Tree, Item),
}

/// A builtin whose arguments are run one after the other.
#[derive(Clone, Copy)]
pub enum Builtin {
    Range,
    Halts,
    Native(Native),
}

/// Objects, strings and calls that are made part by part: what remains, what is made so far, and the input.
#[derive(Drop)]
pub enum Making<'p> {
    /// The key is known.
    EntryValue(SharedText, &'p [Entry<Tree>], Object<Val>, Val),
    EntryKey(&'p Tree, &'p [Entry<Tree>], Object<Val>, Val),
    OwnEntry(&'p [Entry<Tree>], Object<Val>, Val),
    /// The format, the text in front of the filter, the string after it, and the pieces in front of it.
    Hole(&'p Name, &'p String, SharedText, &'p [Piece<Tree>], Item),
    Argument(Builtin, &'p [Tree], Array<Val>, Item),
}

/// What `reduce` and `foreach` do with each item of their source.
#[derive(Clone, Copy)]
pub enum Fold<'p> {
    Reducing(&'p Tree),
    Extracting(&'p Tree, &'p Tree),
}

/// What runs in the bindings that a pattern makes.
#[derive(Drop)]
pub enum Binder<'p> {
    Body(&'p Tree, Item),
    /// A step of the fold at a height.
    FoldStep(u32, Fold<'p>),
}

/// Parts of a pattern that are still to be matched with a value.
#[derive(Drop)]
pub enum Task<'p> {
    Items(&'p [Pattern], usize, Val),
    Members(&'p [Member], Val),
}

/// Patterns, and the start values of folds.
#[derive(Drop)]
pub enum Binding<'p> {
    Source(&'p Pattern, Binder<'p>),
    /// Waits for a computed key. The tasks are listed with the next one last.
    PatternKey(&'p Pattern, &'p [Member], Val, Vec<Task<'p>>, Binder<'p>),
    FoldStart(&'p Tree, &'p Pattern, Fold<'p>, Item),
}

/// Frames that belong to the fork point at a height.
#[derive(Drop)]
pub enum Holding<'p> {
    FoldUpdate(u32, Fold<'p>),
    Collect(u32),
    LeftSide(u32),
    TryBody(u32, &'p Tree, Item),
    /// The height and the level.
    LabelBody(u32, u32),
}

/// What a frame does. The larger variants are boxed, so that frames are small.
#[derive(Drop)]
pub enum Step<'p> {
    Operation(Operation<'p>),
    Selecting(Selecting<'p>),
    Combining(Combining<'p>),
    Making(Box<Making<'p>>),
    Binding(Box<Binding<'p>>),
    Holding(Holding<'p>),
}

impl<'p> Operation<'p> {
    pub fn copy(&self) -> Result<Operation<'p>, NoMemory>
        ensures { IfOk result (λ o. operation_of o ≡ operation_of self.now) }
    {
        match self {
            Operation::Field(key, guarded) => Ok(Operation::Field(*key, *guarded)),
            Operation::PartAtKey(guarded, key) => Ok(Operation::PartAtKey(*guarded, key.copy()?)),
            Operation::EveryPart(guarded) => Ok(Operation::EveryPart(*guarded)),
            Operation::Operate(operator, right) => Ok(Operation::Operate(*operator, right.copy()?)),
            Operation::ToTruth => Ok(Operation::ToTruth),
            Operation::Negate => Ok(Operation::Negate),
            Operation::PathValue => Ok(Operation::PathValue),
            Operation::Refuse => Ok(Operation::Refuse),
        }
    }
}

impl<'p> Selecting<'p> {
    pub fn copy(&self) -> Result<Selecting<'p>, NoMemory>
        ensures { IfOk result (λ s. (p : Scope) → selecting_in s p ≡ selecting_in self.now p) }
    {
        match self {
            Selecting::TargetKey(target, guarded, input) => Ok(Selecting::TargetKey(
                *target,
                *guarded,
                input.copy()?,
            )),
            Selecting::SliceStart(target, to, guarded, input) => {
                Ok(Selecting::SliceStart(*target, *to, *guarded, input.copy()?))
            }
            Selecting::SliceEnd(target, start, guarded, input) => {
                let start = start.copy()?;
                Ok(Selecting::SliceEnd(*target, start, *guarded, input.copy()?))
            }
        }
    }
}

impl<'p> Combining<'p> {
    pub fn copy(&self) -> Result<Combining<'p>, NoMemory>
        ensures { IfOk result (λ s. (p : Scope) → combining_in s p ≡ combining_in self.now p) }
    {
        match self {
            Combining::PipeInto(second) => Ok(Combining::PipeInto(*second)),
            Combining::RightOperand(operator, left, input) => {
                Ok(Combining::RightOperand(*operator, *left, input.copy()?))
            }
            Combining::Conjunct(right, input) => Ok(Combining::Conjunct(*right, input.copy()?)),
            Combining::Disjunct(right, input) => Ok(Combining::Disjunct(*right, input.copy()?)),
            Combining::Test(holds, fails, input) => Ok(Combining::Test(
                *holds,
                *fails,
                input.copy()?,
            )),
        }
    }
}

impl<'p> Making<'p> {
    pub fn copy(&self) -> Result<Making<'p>, NoMemory>
        ensures { IfOk result (λ s. (p : Scope) → making_in s p ≡ making_in self.now p) }
    {
        match self {
            Making::EntryValue(key, later, made, input) => {
                let key = key.share()?;
                let made = made.share()?;
                Ok(Making::EntryValue(key, *later, made, input.copy()?))
            }
            Making::EntryKey(value, later, made, input) => {
                let made = made.share()?;
                Ok(Making::EntryKey(*value, *later, made, input.copy()?))
            }
            Making::OwnEntry(later, made, input) => {
                let made = made.share()?;
                Ok(Making::OwnEntry(*later, made, input.copy()?))
            }
            Making::Hole(format, front, back, earlier, input) => {
                let back = back.share()?;
                Ok(Making::Hole(*format, *front, back, *earlier, input.copy()?))
            }
            Making::Argument(builtin, later, known, input) => {
                let known = known.share()?;
                Ok(Making::Argument(*builtin, *later, known, input.copy()?))
            }
        }
    }
}

/// The update of a fold: the filter that runs for each item of the source.
pub fn update_of<'p>(fold: Fold<'p>) -> &'p Tree
    ensures { named result.now ≡ machine.update_of (fold_of fold.entry) }
{
    match fold {
        Fold::Reducing(update) => update,
        Fold::Extracting(update, _) => update,
    }
}

impl<'p> Binder<'p> {
    pub fn copy(&self) -> Result<Binder<'p>, NoMemory>
        ensures { IfOk result (λ b. binder_of b ≡ binder_of self.now) }
    {
        match self {
            Binder::Body(body, input) => Ok(Binder::Body(*body, input.copy()?)),
            Binder::FoldStep(height, fold) => Ok(Binder::FoldStep(*height, *fold)),
        }
    }
}

impl<'p> Task<'p> {
    pub fn copy(&self) -> Result<Task<'p>, NoMemory>
        ensures { IfOk result (λ t. task_of t ≡ task_of self.now) }
    {
        match self {
            Task::Items(patterns, index, value) => Ok(Task::Items(
                *patterns,
                *index,
                value.copy()?,
            )),
            Task::Members(members, value) => Ok(Task::Members(*members, value.copy()?)),
        }
    }
}

/// Equal tasks.
fn copy_tasks<'p>(alloc: Global, tasks: &[Task<'p>]) -> Result<Vec<Task<'p>>, NoMemory>
    ensures { IfOk result (λ v. map task_of v.items ≡ map task_of tasks.now) }
{
    let mut copied = Vec::with_capacity(alloc, tasks.len())?;
    for task in tasks {
        copied.push(task.copy()?)?;
    }
    Ok(copied)
}

impl<'p> Binding<'p> {
    pub fn copy(&self, alloc: Global) -> Result<Binding<'p>, NoMemory>
        ensures { IfOk result (λ s. (p : Scope) → binding_in s p ≡ binding_in self.now p) }
    {
        match self {
            Binding::Source(pattern, binder) => Ok(Binding::Source(*pattern, binder.copy()?)),
            Binding::PatternKey(pattern, later, value, tasks, binder) => {
                let value = value.copy()?;
                let tasks = copy_tasks(alloc, tasks.as_slice())?;
                Ok(Binding::PatternKey(*pattern, *later, value, tasks, binder.copy()?))
            }
            Binding::FoldStart(source, pattern, fold, input) => {
                Ok(Binding::FoldStart(*source, *pattern, *fold, input.copy()?))
            }
        }
    }
}

impl<'p> Holding<'p> {
    pub fn copy(&self) -> Result<Holding<'p>, NoMemory>
        ensures { IfOk result (λ s. (p : Scope) → holding_in s p ≡ holding_in self.now p) }
    {
        match self {
            Holding::FoldUpdate(height, fold) => Ok(Holding::FoldUpdate(*height, *fold)),
            Holding::Collect(height) => Ok(Holding::Collect(*height)),
            Holding::LeftSide(height) => Ok(Holding::LeftSide(*height)),
            Holding::TryBody(height, handler, input) => Ok(Holding::TryBody(
                *height,
                *handler,
                input.copy()?,
            )),
            Holding::LabelBody(height, level) => Ok(Holding::LabelBody(*height, *level)),
        }
    }
}

impl<'p> Step<'p> {
    /// An equal step. It shares the values that it keeps.
    pub fn copy(&self, alloc: Global) -> Result<Step<'p>, NoMemory>
        ensures { IfOk result (λ s. (p : Scope) → step_in s p ≡ step_in self.now p) }
    {
        match self {
            Step::Operation(step) => Ok(Step::Operation(step.copy()?)),
            Step::Selecting(step) => Ok(Step::Selecting(step.copy()?)),
            Step::Combining(step) => Ok(Step::Combining(step.copy()?)),
            Step::Making(step) => Ok(Step::Making(Box::new(alloc, step.copy()?)?)),
            Step::Binding(step) => Ok(Step::Binding(Box::new(alloc, step.copy(alloc)?)?)),
            Step::Holding(step) => Ok(Step::Holding(step.copy()?)),
        }
    }
}
