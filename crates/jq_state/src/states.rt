// The state of a run: environments, frames and fork points together.
ghost use Rattle.std.proofs.Props.{props};
ghost use Rattle.std.specs.Prelude.{ℕ, ◌-◌, ◌^◌, ◌<◌, length};
ghost use Rattle.jq_state.specs.Chains.{height_of};
ghost use Rattle.jq_state.specs.Environments.{count_of, first_count};
ghost use Rattle.jq_state.specs.States.{Fits};
ghost use Rattle.jq_state.specs.laws.Propositions.{ForksFit-prop};

use crate::environments::{Binding, Nodes};
use crate::forks::{Choice, Fork};
use crate::frames::{Frame, Frames, Scope};
use crate::items::Item;
use crate::programs::ProgramBindings;
use crate::steps::Step;
use jv_data::{NoMemory, Val};
use std::alloc::Global;

/// The environments, the frames and the fork points of a run. `top` is the index of the frame that gets the next item.
pub struct State<'p> {
    nodes: Nodes<'p>,
    frames: Frames<'p>,
    forks: Vec<Fork<'p>>,
    top: u32,
    ghost small: { length forks.items < 2 ^ 32 - 1 },
    ghost fit: { Fits nodes frames forks.items top } by { Prim.hlevel (props, ForksFit-prop 0 (first_count nodes) frames.frames.items (height_of frames) (count_of nodes) forks.items) },
}

// A `Drop` of its own, for the reason at `Val`.
impl Drop for State<'_> {
    fn drop(self) {
        let State {
            nodes: _nodes,
            frames: _frames,
            forks: _forks,
            top: _top,
        } = self;
    }
}

impl<'p> State<'p> {
    ghost use Rattle.std.specs.Prelude.{◌≡◌, ◌≤◌, ◌+◌, ◌∷◌, ◌++◌, [], IfOk, OnOk, IfSome, IfNone, IsSome, map};
    ghost use Rattle.jv_data.specs.Value.{Value};
    ghost use Rattle.jq_meaning.specs.Env.{bound, find_inputs};
    ghost use Rattle.jq_meaning.specs.Runs.{Run};
    ghost use Rattle.jq_meaning.specs.machine.Operations.{state_in};
    ghost use Rattle.jq_meaning.specs.machine.Stack.{cell_at, cut, set_cell};
    ghost use Rattle.jq_meaning.specs.machine.Machine.{step_of};
    ghost use Rattle.jq_meaning.specs.machine.State.{give, go_back, moves, state};
    ghost use Rattle.jq_state.specs.Items.{item_of};
    ghost use Rattle.jq_state.specs.Nodes.{BindingFits, binding_in, env_at, program_binding};
    ghost use Rattle.jq_state.specs.Listed.{items_in};
    ghost use Rattle.jq_state.specs.Environments.{program_of};
    ghost use Rattle.jq_state.specs.Links.{scope_in};
    ghost use Rattle.jq_state.specs.Nexts.{on_stack};
    ghost use Rattle.jq_state.specs.Steps.{step_in};
    ghost use Rattle.jq_state.specs.Forks.{forked, last_frames, last_envs};
    ghost use Rattle.jq_state.specs.Views.{envs_in, frames_in, forks_in, needed_frames, needed_envs, newest_left, without_first, IsFirst, is_empty};

    /// A state in the program's own environments, with no frame and no fork point. Out of memory only if the program has 2^32 - 1
    /// bindings or more.
    pub fn new(alloc: Global, program: &'p ProgramBindings) -> Result<State<'p>, NoMemory>
        ensures program { IfOk result (λ s. program_of s.nodes ≡ map program_binding (items_in program.now)) }
        ensures count { IfOk result (λ s. count_of s.nodes ≡ length (items_in program.now) + 1) }
        ensures frames { IfOk result (λ s. (inputs : Run Value) → frames_in inputs s ≡ []) }
        ensures forks { IfOk result (λ s. (inputs : Run Value) → forks_in inputs s ≡ []) }
    {
        let nodes = Nodes::new(alloc, program)?;
        Ok(State::over(alloc, nodes))
    }

    /// A state in these environments, with no frame and no fork point.
    pub fn over(alloc: Global, nodes: Nodes<'p>) -> State<'p>
        ensures nodes { result.nodes ≡ nodes.entry }
        ensures frames { (inputs : Run Value) → frames_in inputs result ≡ [] }
        ensures forks { (inputs : Run Value) → forks_in inputs result ≡ [] }
    {
        State {
            nodes,
            frames: Frames::new(alloc),
            forks: Vec::new(alloc),
            top: 0,
        }
    }

    /// Adds a binding to an environment, and returns the index of the environment that this makes. Out of memory also if there
    /// are 2^32 - 1 environments already.
    pub fn add(&mut self, binding: Binding<'p>, outer: u32) -> Result<u32, NoMemory>
        requires outer { outer < count_of self.old.nodes }
        requires own { BindingFits (count_of self.old.nodes) binding }
        ensures env { IfOk result (λ i. (inputs : Run Value) → env_at (envs_in inputs self.new) i ≡ bound (binding_in (envs_in inputs self.old) binding.entry) (env_at (envs_in inputs self.old) outer)) }
        ensures within { IfOk result (λ i. i < count_of self.new.nodes) }
        ensures grows { count_of self.old.nodes ≤ count_of self.new.nodes }
        ensures others { OnOk result ((inputs : Run Value) (i : ℕ) → i < count_of self.old.nodes → env_at (envs_in inputs self.new) i ≡ env_at (envs_in inputs self.old) i) }
        ensures frames { OnOk result ((inputs : Run Value) → frames_in inputs self.new ≡ frames_in inputs self.old) }
        ensures forks { OnOk result ((inputs : Run Value) → forks_in inputs self.new ≡ forks_in inputs self.old) }
    {
        let index = self.nodes.push(binding, outer)?;
        Ok(index)
    }

    /// Pushes a frame that gets the next item. Out of memory also if there are 2^32 - 2 frames already.
    pub fn push(&mut self, step: Step<'p>, scope: Scope) -> Result<(), NoMemory>
        requires { scope.env < count_of self.old.nodes }
        ensures envs { self.new.nodes ≡ self.old.nodes }
        ensures frames { OnOk result ((inputs : Run Value) → frames_in inputs self.new ≡ step_in step.entry (scope_in (envs_in inputs self.old) scope) ∷ frames_in inputs self.old) }
        ensures forks { OnOk result ((inputs : Run Value) → forks_in inputs self.new ≡ forks_in inputs self.old) }
    {
        let frame = Frame {
            step,
            scope,
            next: self.top,
            mark: self.nodes.count(),
        };
        let index = self.frames.push(frame)?;
        self.top = index;
        Ok(())
    }

    /// Makes a fork point with the current frames. Out of memory also if there are 2^32 - 2 fork points already.
    pub fn fork(
        &mut self,
        choice: Choice<'p>,
        cell: Vec<Item>,
        scope: Scope,
    ) -> Result<(), NoMemory>
        requires { scope.env < count_of self.old.nodes }
        ensures envs { self.new.nodes ≡ self.old.nodes }
        ensures frames { OnOk result ((inputs : Run Value) → frames_in inputs self.new ≡ frames_in inputs self.old) }
        ensures forks { OnOk result ((inputs : Run Value) → forks_in inputs self.new ≡ forked (envs_in inputs self.old) choice.entry cell scope (frames_in inputs self.old) ∷ forks_in inputs self.old) }
    {
        if self.forks.len() >= 4_294_967_294 {
            return Err(NoMemory);
        }
        let fork = Fork {
            choice,
            cell,
            scope,
            next: self.top,
            frames: self.frames.count(),
            envs: self.nodes.count(),
        };
        self.forks.push(fork)?;
        Ok(())
    }

    /// Removes the newest fork point and goes back to it: its frames get the next item.
    pub fn go_back(&mut self) -> Option<Fork<'p>>
        ensures none { IfNone result ((inputs : Run Value) → forks_in inputs self.old ≡ []) }
        ensures scope { IfSome result (λ f. f.scope.env < count_of self.new.nodes) }
        ensures forks { IfSome result (λ f. (inputs : Run Value) → forks_in inputs self.old ≡ forked (envs_in inputs self.new) f.choice f.cell f.scope (frames_in inputs self.new) ∷ forks_in inputs self.new) }
    {
        let Some(fork) = self.forks.pop() else {
            return None;
        };
        self.frames.cut(fork.frames);
        self.nodes.cut(fork.envs);
        self.top = fork.next;
        Some(fork)
    }

    /// Goes back to the newest fork point if it has at least two more numbers of a range, or two more items, and returns the
    /// first one. The fork point stays, for the others.
    pub fn give_next(&mut self) -> Option<Item>
        ensures none_envs { IfNone result (self.new.nodes ≡ self.old.nodes) }
        ensures none_frames { IfNone result ((inputs : Run Value) → frames_in inputs self.new ≡ frames_in inputs self.old) }
        ensures none_forks { IfNone result ((inputs : Run Value) → forks_in inputs self.new ≡ forks_in inputs self.old) }
        ensures few { IfNone result (newest_left self.old ≤ 1) }
        ensures some { IfSome result (λ x. (inputs : Run Value) → on_stack self.old (step_of go_back) inputs ≡ moves (on_stack self.new (state (give (item_of x))) inputs)) }
    {
        let count = self.forks.len();
        if count == 0 {
            return None;
        }
        let fork = &mut self.forks[count - 1];
        let item = fork.choice.take_first()?;
        fork.cell.clear();
        self.frames.cut(fork.frames);
        self.nodes.cut(fork.envs);
        self.top = fork.next;
        Some(item)
    }

    /// Removes the newest frames and environments that neither the frame that gets the next item, nor one outside of it, nor a
    /// fork point needs.
    pub fn trim(&mut self)
        ensures frames { (inputs : Run Value) → frames_in inputs self.new ≡ frames_in inputs self.old }
        ensures forks { (inputs : Run Value) → forks_in inputs self.new ≡ forks_in inputs self.old }
        ensures left { height_of self.new.frames ≡ needed_frames self.old }
        ensures left_envs { count_of self.new.nodes ≡ needed_envs self.old }
    {
        let frames = self.top.max(self.base());
        let envs = self.base_envs();
        self.frames.cut(frames);
        let count = self.frames.mark().max(envs);
        self.nodes.cut(count);
    }

    /// The environments by index.
    #[inline(always)]
    pub fn nodes(&self) -> &Nodes<'p>
        ensures { result.now ≡ self.now.nodes }
    {
        &self.nodes
    }

    /// At the end of each environment are the inputs.
    pub fn inputs_stand_outermost(&self)
        ensures { (inputs : Run Value) (i : ℕ) → i < count_of self.now.nodes → find_inputs (env_at (envs_in inputs self.now) i) ≡ inputs }
    {
        let _ = self.top;
    }

    /// The number of fork points.
    #[inline(always)]
    pub fn height(&self) -> u32
        ensures { (inputs : Run Value) → length (forks_in inputs self.now) ≡ result }
    {
        self.forks.len() as u32
    }

    /// Removes the newest fork points, down to a height.
    pub fn cut_forks(&mut self, height: u32)
        ensures envs { self.new.nodes ≡ self.old.nodes }
        ensures frames { (inputs : Run Value) → frames_in inputs self.new ≡ frames_in inputs self.old }
        ensures forks { (inputs : Run Value) → forks_in inputs self.new ≡ cut height (forks_in inputs self.old) }
    {
        self.forks.truncate(height as usize);
    }

    /// Adds an item at the end of the cell at a height.
    pub fn add_to_cell(&mut self, height: u32, item: Item) -> Result<(), NoMemory>
        ensures envs { self.new.nodes ≡ self.old.nodes }
        ensures frames { OnOk result ((inputs : Run Value) → frames_in inputs self.new ≡ frames_in inputs self.old) }
        ensures forks { OnOk result ((inputs : Run Value) → forks_in inputs self.new ≡ set_cell height (cell_at height (forks_in inputs self.old) ++ item_of item ∷ []) (forks_in inputs self.old)) }
    {
        let index = height as usize;
        if index >= self.forks.len() {
            return Ok(());
        }
        self.forks[index].cell.push(item)?;
        Ok(())
    }

    /// The cell at a height becomes this one item.
    pub fn replace_cell(&mut self, height: u32, item: Item) -> Result<(), NoMemory>
        ensures envs { self.new.nodes ≡ self.old.nodes }
        ensures frames { OnOk result ((inputs : Run Value) → frames_in inputs self.new ≡ frames_in inputs self.old) }
        ensures forks { OnOk result ((inputs : Run Value) → forks_in inputs self.new ≡ set_cell height (item_of item ∷ []) (forks_in inputs self.old)) }
    {
        let index = height as usize;
        if index >= self.forks.len() {
            return Ok(());
        }
        let cell = &mut self.forks[index].cell;
        cell.clear();
        cell.push(item)?;
        Ok(())
    }

    /// Takes the state of a fold out of the cell at a height. The state of an empty cell is null.
    pub fn take_state(&mut self, height: u32) -> Item
        ensures envs { self.new.nodes ≡ self.old.nodes }
        ensures item { (inputs : Run Value) → item_of result ≡ state_in (cell_at height (forks_in inputs self.old)) }
        ensures frames { (inputs : Run Value) → frames_in inputs self.new ≡ frames_in inputs self.old }
        ensures forks { (inputs : Run Value) → forks_in inputs self.new ≡ set_cell height [] (forks_in inputs self.old) }
    {
        let index = height as usize;
        if index >= self.forks.len() {
            return Item::plain(Val::Null);
        }
        let cell = &mut self.forks[index].cell;
        cell.truncate(1);
        match cell.pop() {
            Some(state) => state,
            None => Item::plain(Val::Null),
        }
    }

    /// Whether the cell at a height is empty.
    pub fn is_cell_empty(&self, height: u32) -> bool
        ensures { (inputs : Run Value) → result ≡ is_empty (cell_at height (forks_in inputs self.now)) }
    {
        let index = height as usize;
        if index >= self.forks.len() {
            return true;
        }
        self.forks[index].cell.is_empty()
    }

    /// The frame that gets the next item, with its scope; none at the end.
    pub fn top(&self) -> Option<(&Step<'p>, Scope)>
        ensures none { IfNone result ((inputs : Run Value) → frames_in inputs self.now ≡ []) }
        ensures scope { IfSome result (λ r. r.1.env < count_of self.now.nodes) }
        ensures frames { IfSome result (λ r. (inputs : Run Value) → IsFirst (step_in r.0.now (scope_in (envs_in inputs self.now) r.1)) (frames_in inputs self.now)) }
    {
        if self.top == 0 {
            return None;
        }
        let frame = self.frames.get(self.top);
        Some((&frame.step, frame.scope))
    }

    /// The frame outside of the one that gets the next item, with its scope, if there is one.
    pub fn second(&self) -> Option<(&Step<'p>, Scope)>
        ensures scope { IfSome result (λ r. r.1.env < count_of self.now.nodes) }
        ensures frames { IfSome result (λ r. (inputs : Run Value) → IsFirst (step_in r.0.now (scope_in (envs_in inputs self.now) r.1)) (without_first (frames_in inputs self.now))) }
    {
        if self.top == 0 {
            return None;
        }
        let next = self.frames.get(self.top).next;
        if next == 0 {
            return None;
        }
        let frame = self.frames.get(next);
        Some((&frame.step, frame.scope))
    }

    /// Skips the frame that gets the next item.
    pub fn skip(&mut self)
        ensures envs { self.new.nodes ≡ self.old.nodes }
        ensures frames { (inputs : Run Value) → frames_in inputs self.new ≡ without_first (frames_in inputs self.old) }
        ensures forks { (inputs : Run Value) → forks_in inputs self.new ≡ forks_in inputs self.old }
    {
        if self.top > 0 {
            self.top = self.frames.get(self.top).next;
        }
    }

    // How many frames the newest fork point needs again.
    fn base(&self) -> u32
        ensures { result ≡ last_frames 0 self.now.forks.items }
    {
        let count = self.forks.len();
        if count == 0 {
            return 0;
        }
        self.forks[count - 1].frames
    }

    // How many environments the newest fork point needs again; without a fork point, the number of the program's own.
    fn base_envs(&self) -> u32
        ensures { result ≡ last_envs (first_count self.now.nodes) self.now.forks.items }
    {
        let count = self.forks.len();
        if count == 0 {
            return self.nodes.first_count();
        }
        self.forks[count - 1].envs
    }

    /// Takes the frame that gets the next item, with its scope; none at the end. The frame
    /// is copied if a fork point needs it again.
    pub fn take(&mut self, alloc: Global) -> Result<Option<(Step<'p>, Scope)>, NoMemory>
        ensures envs { self.new.nodes ≡ self.old.nodes }
        ensures none { IfOk result (λ o. IfNone o ((inputs : Run Value) → frames_in inputs self.old ≡ [])) }
        ensures end { IfOk result (λ o. IfNone o ((inputs : Run Value) → frames_in inputs self.new ≡ [])) }
        ensures scope { IfOk result (λ o. IfSome o (λ r. r.1.env < count_of self.new.nodes)) }
        ensures frames { IfOk result (λ o. IfSome o (λ r. (inputs : Run Value) → frames_in inputs self.old ≡ step_in r.0 (scope_in (envs_in inputs self.old) r.1) ∷ frames_in inputs self.new)) }
        ensures forks { OnOk result ((inputs : Run Value) → forks_in inputs self.new ≡ forks_in inputs self.old) }
    {
        let top = self.top;
        if top == 0 {
            return Ok(None);
        }
        if top == self.frames.count() && self.base() < top {
            return Ok(self.take_newest());
        }
        self.copy_top(alloc)
    }

    fn take_newest(&mut self) -> Option<(Step<'p>, Scope)>
        requires newest { self.old.top ≡ height_of self.old.frames }
        requires base { last_frames 0 self.old.forks.items < self.old.top }
        ensures envs { self.new.nodes ≡ self.old.nodes }
        ensures some { IsSome result }
        ensures scope { IfSome result (λ r. r.1.env < count_of self.new.nodes) }
        ensures frames { IfSome result (λ r. (inputs : Run Value) → frames_in inputs self.old ≡ step_in r.0 (scope_in (envs_in inputs self.old) r.1) ∷ frames_in inputs self.new) }
        ensures forks { (inputs : Run Value) → forks_in inputs self.new ≡ forks_in inputs self.old }
    {
        let Some(frame) = self.frames.pop() else {
            return None;
        };
        let Frame {
            step,
            scope,
            next,
            mark: _mark,
        } = frame;
        self.top = next;
        Some((step, scope))
    }

    fn copy_top(&mut self, alloc: Global) -> Result<Option<(Step<'p>, Scope)>, NoMemory>
        requires { 0 < self.old.top }
        ensures envs { self.new.nodes ≡ self.old.nodes }
        ensures some { IfOk result (λ o. IsSome o) }
        ensures scope { IfOk result (λ o. IfSome o (λ r. r.1.env < count_of self.new.nodes)) }
        ensures frames { IfOk result (λ o. IfSome o (λ r. (inputs : Run Value) → frames_in inputs self.old ≡ step_in r.0 (scope_in (envs_in inputs self.old) r.1) ∷ frames_in inputs self.new)) }
        ensures forks { OnOk result ((inputs : Run Value) → forks_in inputs self.new ≡ forks_in inputs self.old) }
    {
        let frame = self.frames.get(self.top);
        let step = frame.step.copy(alloc)?;
        let scope = frame.scope;
        let next = frame.next;
        self.top = next;
        Ok(Some((step, scope)))
    }
}
