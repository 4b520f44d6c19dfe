// The result of one walk over a filter.
ghost use Rattle.std.specs.Prelude.{◌≡◌, ◌&&◌, ◌||◌, true, false, not, if◌then◌else◌};
ghost use Rattle.jq_inputs.specs.private.Counts.{plus, is_zero};
ghost use Rattle.jq_inputs.specs.private.Surveys.{is_single, beside};

/// How often a filter calls `inputs`.
#[derive(Clone, Copy)]
pub(crate) enum Count {
    Zero,
    One,
    More,
}

impl Count {
    pub(crate) fn plus(self, other: Count) -> Count
        ensures { result ≡ plus self other }
    {
        match (self, other) {
            (Count::Zero, count) => count,
            (count, Count::Zero) => count,
            _ => Count::More,
        }
    }

    pub(crate) fn is_zero(self) -> bool
        ensures { result ≡ is_zero self }
    {
        matches!(self, Count::Zero)
    }
}

#[derive(Clone, Copy)]
pub(crate) struct Survey {
    pub count: Count,
    /// By its form, the filter has at most one output.
    pub at_most_one: bool,
    /// If the filter is evaluated at most once, so is an `inputs` in it.
    pub once: bool,
}

impl Survey {
    // The survey of a filter without `inputs`.
    pub(crate) fn leaf(at_most_one: bool) -> Survey
        ensures { result ≡ record { count = Count.Zero; at_most_one = at_most_one; once = false } }
    {
        Survey {
            count: Count::Zero,
            at_most_one,
            once: false,
        }
    }

    // The survey of a filter that may evaluate its parts more than once.
    pub(crate) fn often(count: Count) -> Survey
        ensures { result ≡ record { count = count; at_most_one = false; once = false } }
    {
        Survey {
            count,
            at_most_one: false,
            once: false,
        }
    }

    // Whether the filter has at most one output by its form, and no `inputs`.
    pub(crate) fn is_single(self) -> bool
        ensures { result ≡ is_single self }
    {
        self.at_most_one && self.count.is_zero()
    }

    // A call with no arguments.
    pub(crate) fn of_call(is_inputs: bool) -> Survey
        ensures { result ≡ record { count = (if is_inputs then Count.One else Count.Zero); at_most_one = false; once = is_inputs } }
    {
        Survey {
            count: if is_inputs { Count::One } else { Count::Zero },
            at_most_one: false,
            once: is_inputs,
        }
    }

    // The only argument of a call.
    pub(crate) fn argument(self, at_most_once: bool) -> Survey
        ensures { result ≡ record { count = self.count; at_most_one = false; once = at_most_once && self.once } }
    {
        Survey {
            count: self.count,
            at_most_one: false,
            once: at_most_once && self.once,
        }
    }

    // `f.a` of f.
    pub(crate) fn in_field(self, guarded: bool) -> Survey
        ensures { result ≡ record self { at_most_one = not guarded && self.at_most_one } }
    {
        Survey {
            at_most_one: !guarded && self.at_most_one,
            ..self
        }
    }

    // `-f` of f.
    pub(crate) fn negated(self) -> Survey
        ensures { result ≡ record self { once = false } }
    {
        Survey {
            once: false,
            ..self
        }
    }

    // `[f]` of f.
    pub(crate) fn collected(self) -> Survey
        ensures { result ≡ record self { at_most_one = true } }
    {
        Survey {
            at_most_one: true,
            ..self
        }
    }

    // The survey of a form that evaluates this filter and may have more outputs.
    pub(crate) fn many(self) -> Survey
        ensures { result ≡ record self { at_most_one = false } }
    {
        Survey {
            at_most_one: false,
            ..self
        }
    }

    // The same with a part that must not call `inputs`.
    pub(crate) fn with(self, count: Count) -> Survey
        ensures { result ≡ record self { count = plus self.count count; at_most_one = false } }
    {
        Survey {
            count: self.count.plus(count),
            at_most_one: false,
            once: self.once,
        }
    }

    // The entries of an object so far, with one more entry.
    pub(crate) fn beside(self, entry: Survey) -> Survey
        ensures { result ≡ beside self entry }
    {
        Survey {
            count: self.count.plus(entry.count),
            at_most_one: self.at_most_one && entry.at_most_one,
            once: self.once && entry.is_single() || self.is_single() && entry.once,
        }
    }

    // The survey of a filter that is evaluated for each output of another one.
    pub(crate) fn for_outputs_of(self, other: Survey) -> Survey
        ensures { result ≡ record { count = plus self.count other.count; at_most_one = false; once = self.once && is_single other } }
    {
        Survey {
            count: self.count.plus(other.count),
            at_most_one: false,
            once: self.once && other.is_single(),
        }
    }

    // `reduce f as P (start; update)`, or `foreach` without the part after the update.
    pub(crate) fn fold(self, start: Survey, pattern: Count, update: Count) -> Survey
        ensures { result ≡ record { count = plus (plus (plus self.count start.count) pattern) update; at_most_one = false; once = self.once && is_single start } }
    {
        self.for_outputs_of(start).with(pattern).with(update)
    }

    // `f, g`.
    pub(crate) fn either(self, second: Survey) -> Survey
        ensures { result ≡ record { count = plus self.count second.count; at_most_one = false; once = self.once || second.once } }
    {
        Survey {
            count: self.count.plus(second.count),
            at_most_one: false,
            once: self.once || second.once,
        }
    }

    // `f + g`: the right operand is evaluated first, and the left one for each of its outputs.
    pub(crate) fn operands(self, right: Survey) -> Survey
        ensures { result ≡ record { count = plus self.count right.count; at_most_one = self.at_most_one && right.at_most_one; once = right.once || (self.once && is_single right) } }
    {
        Survey {
            count: self.count.plus(right.count),
            at_most_one: self.at_most_one && right.at_most_one,
            once: right.once || self.once && right.is_single(),
        }
    }

    // The two arguments of a call.
    pub(crate) fn arguments(self, second: Survey, is_any: bool, is_limit: bool) -> Survey
        ensures { result ≡ record { count = plus self.count second.count; at_most_one = false; once = (is_any && self.once) || (is_limit && (is_single self && second.once)) } }
    {
        let limited = is_limit && self.is_single() && second.once;
        Survey {
            count: self.count.plus(second.count),
            at_most_one: false,
            once: is_any && self.once || limited,
        }
    }
}
