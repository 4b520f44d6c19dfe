// Frames by index: index 0 is the end, and each frame has the index of the one outside of it.
ghost use Rattle.std.specs.Prelude.{◌+◌, ◌-◌, ◌^◌, ◌<◌, length};
ghost use Rattle.jq_state.specs.Links.{FramesFit};
ghost use Rattle.jq_state.specs.laws.Propositions.{FramesFit-prop};

use crate::steps::Step;
use jv_data::NoMemory;
use std::alloc::Global;

/// The scope of a filter: the index of its environment, how deep its calls may still nest, and the level of the next label.
#[derive(Clone, Copy)]
pub struct Scope {
    pub env: u32,
    pub depth: u32,
    pub level: u32,
}

/// A frame, with the count of environments when it was pushed.
#[derive(Drop)]
pub struct Frame<'p> {
    pub step: Step<'p>,
    pub scope: Scope,
    pub next: u32,
    pub mark: u32,
}

/// The frames of a run. The environments of each are below its mark, and the marks do not fall from one frame to the next.
#[derive(Drop)]
pub struct Frames<'p> {
    frames: Vec<Frame<'p>>,
    ghost small: { length frames.items < 2 ^ 32 - 1 },
    ghost fit: { FramesFit 0 0 frames.items } by { FramesFit-prop 0 0 frames.items },
}

impl<'p> Frames<'p> {
    ghost use Rattle.std.specs.Prelude.{◌≡◌, ◌≤◌, ◌++◌, ◌∷◌, [], IfOk, OnOk, OnErr, MatchOption, take, List};
    ghost use Rattle.jq_meaning.specs.Env.{Env};
    ghost use Rattle.jq_state.specs.Links.{FrameFits, frame_in};
    ghost use Rattle.jq_state.specs.Chains.{continuations, frames_at, height_of, mark_of, Popped};

    /// No frames yet. It allocates nothing.
    pub fn new(alloc: Global) -> Frames<'p>
        ensures count { height_of result ≡ 0 }
        ensures mark { mark_of result ≡ 0 }
        ensures frames { (envs : List Env) → continuations envs result ≡ [] ∷ [] }
    {
        Frames {
            frames: Vec::new(alloc),
        }
    }

    /// The number of frames, which is the index of the newest one.
    #[inline(always)]
    pub fn count(&self) -> u32
        ensures { result ≡ height_of self.now }
    {
        self.frames.len() as u32
    }

    /// The mark of the newest frame; 0 if there is no frame.
    pub(crate) fn mark(&self) -> u32
        ensures { result ≡ mark_of self.now }
    {
        let count = self.frames.len();
        if count == 0 {
            return 0;
        }
        self.frames[count - 1].mark
    }

    /// Pushes a frame, and returns its index. Out of memory also if there are 2^32 - 2 frames already.
    pub fn push(&mut self, frame: Frame<'p>) -> Result<u32, NoMemory>
        requires fits { FrameFits (height_of self.old) frame }
        requires rising { mark_of self.old ≤ frame.mark }
        ensures index { IfOk result (λ i. i ≡ height_of self.old + 1) }
        ensures count { OnOk result (height_of self.new ≡ height_of self.old + 1) }
        ensures mark { OnOk result (mark_of self.new ≡ frame.entry.mark) }
        ensures pushed { OnOk result (self.new.frames.items ≡ self.old.frames.items ++ frame.entry ∷ []) }
        ensures failed { OnErr result (self.new.frames.items ≡ self.old.frames.items) }
        ensures frames { OnOk result ((envs : List Env) → continuations envs self.new ≡ continuations envs self.old ++ (frame_in envs frame.entry ∷ frames_at envs self.old frame.entry.next) ∷ []) }
    {
        let index = self.count();
        if index == 4_294_967_294 {
            return Err(NoMemory);
        }
        self.frames.push(frame)?;
        Ok(index + 1)
    }

    /// The frame at an index.
    #[inline(always)]
    pub fn get(&self, index: u32) -> &Frame<'p>
        requires first { 0 < index }
        requires within { index ≤ height_of self.now }
        ensures fits { FrameFits (index - 1) result.now }
        ensures mark { result.now.mark ≤ mark_of self.now }
        ensures frames { (envs : List Env) → frames_at envs self.now index ≡ frame_in envs result.now ∷ frames_at envs self.now result.now.next }
    {
        &self.frames[(index - 1) as usize]
    }

    /// Removes the newest frame and returns it.
    #[inline(always)]
    pub fn pop(&mut self) -> Option<Frame<'p>>
        ensures { MatchOption result ((height_of self.old ≡ 0) × (height_of self.new ≡ 0)) (λ f. Popped self.old.frames.items f self.new.frames.items) }
    {
        self.frames.pop()
    }

    /// Removes the newest frames, down to a count.
    pub(crate) fn cut(&mut self, count: u32)
        requires { count ≤ height_of self.old }
        ensures count { height_of self.new ≡ count }
        ensures mark { mark_of self.new ≤ mark_of self.old }
        ensures left { self.new.frames.items ≡ take count self.old.frames.items }
        ensures frames { (envs : List Env) → continuations envs self.new ≡ take (count + 1) (continuations envs self.old) }
    {
        self.frames.truncate(count as usize);
    }
}
