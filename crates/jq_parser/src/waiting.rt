// The turns after a part was read: each continues with the frame that waits for that part.
//
// Where one token must follow, most turns build their tree or frame before they look at it, so that few values are still
// to be dropped where they stop.
ghost use Rattle.std.specs.Prelude.{◌≡◌, ◌∷◌, ◌++◌, [], map, None, Err, MatchResult};
ghost use Rattle.jv_data.specs.Text.{text_of};
ghost use Rattle.jq_ast.specs.Named.{named, named_as_part, named_entry};
ghost use Rattle.jq_lexer.specs.Views.{symbol_of, token_of};
ghost use Rattle.jq_parser.specs.laws.Machine as m;
ghost use Rattle.jq_builders.specs.Trees.{onto, branch_before};
ghost use Rattle.jq_builders.specs.Views.{tree_in, pattern_in, maybe, branch_of, piece_of, value_key_of, definition_of};
ghost use Rattle.jq_parser.specs.declared.faults.ParseFault.TheVariants.{NoMemory};
ghost use Rattle.jq_parser.specs.private.Parsing.{Turns, ahead, waiting, text_use_of, definition_frame_of, definition_use_of, fold_of, frame_of, operator_frame_of, scope_frame_of, term_frame_of, block_frame_of, object_frame_of};

use crate::faults::ParseFault;
use crate::forms::{
    BlockFrame, DefinitionUse, Fold, Frame, Mode, ObjectFrame, OperatorFrame, PatternFrame,
    ScopeFrame, TermFrame, TextUse, whole,
};
use crate::parser::Parser;
use crate::tables::next_from;
use jq_ast::{Entry, Member, Pattern, Piece, Tree, boxed};
use jq_builders::definitions::*;
use jq_builders::parts::*;
use jq_builders::trees::*;
use jq_lexer::{Keyword, Symbol, Token};
use std::alloc::AllocError;

impl Parser {
    #[tactic(auto, using(crate::proofs::Tests::tried_tests), unfolding(crate::specs::laws::Machine::tried_turn, crate::specs::private::Parsing::next_of))]
    fn tried(&mut self, t: Box<Tree>) -> Result<Mode, ParseFault>
        ensures { Turns result self.new (m.tried_turn (tree_in t) (waiting self.old) (ahead self.old)) }
    {
        if self.take_word(Keyword::Catch) {
            self.wait(Frame::Operator(OperatorFrame::Caught(t)))?;
            return Ok(Mode::WantBody);
        }
        let t = attempt(self.alloc, t)?;
        Ok(Mode::Have(t))
    }

    #[tactic(auto, unfolding(crate::specs::laws::Machine::have_turn, crate::specs::laws::Machine::operand_turn, crate::specs::private::Parsing::next_of))]
    fn operand(
        &mut self,
        before: Option<Box<Tree>>,
        t: Box<Tree>,
        is_post: bool,
    ) -> Result<Mode, ParseFault>
        ensures { Turns result self.new (m.have_turn (tree_in t) (m.operand (maybe before) is_post ∷ waiting self.old) (ahead self.old)) }
    {
        if is_post && self.begins_with_as() {
            self.skip();
            self.wait(Frame::Pattern(PatternFrame::BindingPattern(before, t)))?;
            return Ok(Mode::WantPattern);
        }
        self.wait(Frame::Operator(OperatorFrame::EndsOperand(before)))?;
        Ok(Mode::Operators(t, 1, 7))
    }

    #[tactic(auto, unfolding(crate::specs::laws::Machine::have_turn, crate::specs::private::Parsing::next_of))]
    fn operated(
        &mut self,
        a: Box<Tree>,
        operator: Token,
        l: u8,
        upto: u8,
        t: Box<Tree>,
    ) -> Result<Mode, ParseFault>
        ensures { Turns result self.new (m.have_turn (tree_in t) (m.operated (tree_in a) (token_of operator) l upto ∷ waiting self.old) (ahead self.old)) }
    {
        let t = joined(self.alloc, operator, a, t)?;
        Ok(Mode::Operators(t, next_from(l), upto))
    }

    #[tactic(auto, using(crate::proofs::Tests::argument_tests), unfolding(crate::specs::laws::Machine::argument_turn, crate::specs::private::Parsing::next_of))]
    fn argument(
        &mut self,
        name: String,
        arguments: Vec<Tree>,
        t: Box<Tree>,
    ) -> Result<Mode, ParseFault>
        ensures { Turns result self.new (m.argument_turn (text_of name) (map named arguments.items ++ tree_in t ∷ []) (waiting self.old) (ahead self.old)) }
    {
        let arguments = with_argument(arguments, t)?;
        if self.take(Symbol::Semicolon) {
            self.wait(Frame::Term(TermFrame::Argument(name, arguments)))?;
            return Ok(Mode::WantPipe(None));
        }
        if self.take(Symbol::RightParenthesis) {
            let t = call_tree(self.alloc, name, arguments)?;
            return Ok(Mode::Suffix(false, t));
        }
        Err(ParseFault::Syntax)
    }

    #[tactic(auto, using(crate::proofs::Tests::test_tests), unfolding(crate::specs::laws::Machine::test_turn, crate::specs::private::Parsing::next_of))]
    fn branch_test(&mut self, branches: Vec<Branch>, t: Box<Tree>) -> Result<Mode, ParseFault>
        ensures { Turns result self.new (m.test_turn (map branch_of branches.items) (tree_in t) (waiting self.old) (ahead self.old)) }
    {
        self.wait(Frame::Block(BlockFrame::BranchHolds(branches, t)))?;
        self.expect_word(Keyword::Then)?;
        Ok(Mode::WantPipe(None))
    }

    #[tactic(auto, unfolding(crate::specs::laws::Machine::have_turn, crate::specs::private::Parsing::next_of))]
    fn branch_read(
        &mut self,
        branches: Vec<Branch>,
        a: Box<Tree>,
        t: Box<Tree>,
    ) -> Result<Mode, ParseFault>
        ensures { Turns result self.new (m.have_turn (tree_in t) (m.branch_holds (map branch_of branches.items) (tree_in a) ∷ waiting self.old) (ahead self.old)) }
    {
        let branches = with_branch(branches, a, t)?;
        self.branch_holds(branches)
    }

    #[tactic(auto, using(crate::proofs::Tests::branch_tests), unfolding(crate::specs::laws::Machine::branch_turn, crate::specs::private::Parsing::next_of))]
    fn branch_holds(&mut self, branches: Vec<Branch>) -> Result<Mode, ParseFault>
        ensures { Turns result self.new (m.branch_turn (map branch_of branches.items) (waiting self.old) (ahead self.old)) }
    {
        if self.take_word(Keyword::Elif) {
            self.wait(Frame::Block(BlockFrame::BranchTest(branches)))?;
            return Ok(Mode::WantPipe(None));
        }
        if self.take_word(Keyword::Else) {
            self.wait(Frame::Block(BlockFrame::BranchFails(branches)))?;
            return Ok(Mode::WantPipe(None));
        }
        let otherwise = boxed(self.alloc, Tree::Identity)?;
        let t = choices(self.alloc, branches, otherwise)?;
        self.expect_word(Keyword::End)?;
        Ok(Mode::Suffix(false, t))
    }

    #[tactic(auto, using(crate::proofs::Tests::fails_tests), unfolding(crate::specs::laws::Machine::fails_turn, crate::specs::private::Parsing::next_of))]
    fn branch_fails(&mut self, branches: Vec<Branch>, t: Box<Tree>) -> Result<Mode, ParseFault>
        ensures { Turns result self.new (m.fails_turn (onto branch_before (map branch_of branches.items) (tree_in t)) (waiting self.old) (ahead self.old)) }
    {
        let t = choices(self.alloc, branches, t)?;
        self.expect_word(Keyword::End)?;
        Ok(Mode::Suffix(false, t))
    }

    #[tactic(auto, using(crate::proofs::Tests::source_tests), unfolding(crate::specs::laws::Machine::source_turn, crate::specs::private::Parsing::next_of))]
    fn fold_source(&mut self, fold: Fold, t: Box<Tree>) -> Result<Mode, ParseFault>
        ensures { Turns result self.new (m.source_turn (fold_of fold) (tree_in t) (waiting self.old) (ahead self.old)) }
    {
        self.wait(Frame::Pattern(PatternFrame::FoldPattern(fold, t)))?;
        self.expect_word(Keyword::As)?;
        Ok(Mode::WantPattern)
    }

    /// The tree is a postfix form so far, and ends with this symbol. `last` says whether it ends with a step.
    #[tactic(auto, unfolding(crate::specs::private::Parsing::next_of))]
    fn closed(
        &mut self,
        wanted: Symbol,
        last: bool,
        made: Result<Box<Tree>, AllocError>,
    ) -> Result<Mode, ParseFault>
        ensures { MatchResult made (λ t. Turns result self.new (m.expecting (symbol_of wanted) (λ i. m.go (m.suffix last (tree_in t)) (waiting self.old) i) (ahead self.old))) (λ _. result ≡ Err NoMemory) }
    {
        let t = made?;
        self.expect(wanted)?;
        Ok(Mode::Suffix(last, t))
    }

    /// After this symbol comes the filter that the frame waits for.
    #[tactic(auto, unfolding(crate::specs::private::Parsing::next_of))]
    pub(crate) fn pipe_after(&mut self, wanted: Symbol, frame: Frame) -> Result<Mode, ParseFault>
        ensures { Turns result self.new (m.expecting (symbol_of wanted) (λ i. m.go (m.want_pipe None) (frame_of frame ∷ waiting self.old) i) (ahead self.old)) }
    {
        self.wait(frame)?;
        self.expect(wanted)?;
        Ok(Mode::WantPipe(None))
    }

    #[tactic(auto, unfolding(crate::specs::laws::Machine::update_turn, crate::specs::private::Parsing::next_of))]
    fn fold_update(
        &mut self,
        fold: Fold,
        a: Box<Tree>,
        x: Box<Pattern>,
        b: Box<Tree>,
        t: Box<Tree>,
    ) -> Result<Mode, ParseFault>
        ensures { Turns result self.new (m.update_turn (fold_of fold) (tree_in a) (pattern_in x) (tree_in b) (tree_in t) (waiting self.old) (ahead self.old)) }
    {
        match fold {
            Fold::Reducing => {
                let reduce = boxed(self.alloc, Tree::Reduce(a, x, b, t));
                self.closed(Symbol::RightParenthesis, false, reduce)
            }
            Fold::Iterating => self.foreach_update(a, x, b, t),
        }
    }

    #[tactic(auto, using(crate::proofs::Tests::iterating_tests), unfolding(crate::specs::laws::Machine::update_turn, crate::specs::private::Parsing::next_of))]
    fn foreach_update(
        &mut self,
        a: Box<Tree>,
        x: Box<Pattern>,
        b: Box<Tree>,
        t: Box<Tree>,
    ) -> Result<Mode, ParseFault>
        ensures { Turns result self.new (m.update_turn m.iterating (tree_in a) (pattern_in x) (tree_in b) (tree_in t) (waiting self.old) (ahead self.old)) }
    {
        if self.take(Symbol::RightParenthesis) {
            let extract = boxed(self.alloc, Tree::Identity)?;
            let t = boxed(self.alloc, Tree::Foreach(a, x, b, t, extract))?;
            return Ok(Mode::Suffix(false, t));
        }
        let next = Frame::Block(BlockFrame::FoldExtract(a, x, b, t));
        self.pipe_after(Symbol::Semicolon, next)
    }

    #[tactic(auto, using(crate::proofs::Tests::part_tests), unfolding(crate::specs::laws::Machine::part_turn, crate::specs::private::Parsing::next_of))]
    fn part(&mut self, a: Box<Tree>, t: Box<Tree>) -> Result<Mode, ParseFault>
        ensures { Turns result self.new (m.part_turn (tree_in a) (tree_in t) (waiting self.old) (ahead self.old)) }
    {
        if self.take(Symbol::RightBracket) {
            let t = boxed(self.alloc, Tree::Index(a, t, false))?;
            return Ok(Mode::Suffix(true, t));
        }
        self.expect(Symbol::Colon)?;
        self.slice(a, t)
    }

    #[tactic(auto, using(crate::proofs::Tests::slice_tests), unfolding(crate::specs::laws::Machine::slice_turn, crate::specs::private::Parsing::next_of))]
    fn slice(&mut self, a: Box<Tree>, from: Box<Tree>) -> Result<Mode, ParseFault>
        ensures { Turns result self.new (m.slice_turn (tree_in a) (tree_in from) (waiting self.old) (ahead self.old)) }
    {
        if self.take(Symbol::RightBracket) {
            let to = null_tree(self.alloc)?;
            let t = boxed(self.alloc, Tree::Slice(a, from, to, false))?;
            return Ok(Mode::Suffix(true, t));
        }
        self.wait(Frame::Term(TermFrame::SliceEnd(a, from)))?;
        Ok(Mode::WantPipe(None))
    }

    #[tactic(auto, unfolding(crate::specs::laws::Machine::have_turn, crate::specs::private::Parsing::next_of))]
    fn slice_to(&mut self, a: Box<Tree>, t: Box<Tree>) -> Result<Mode, ParseFault>
        ensures { Turns result self.new (m.have_turn (tree_in t) (m.slice_to (tree_in a) ∷ waiting self.old) (ahead self.old)) }
    {
        let from = null_tree(self.alloc)?;
        let t = boxed(self.alloc, Tree::Slice(a, from, t, false))?;
        self.expect(Symbol::RightBracket)?;
        Ok(Mode::Suffix(true, t))
    }

    #[tactic(auto, unfolding(crate::specs::laws::Machine::have_turn, crate::specs::private::Parsing::next_of))]
    fn text_part(
        &mut self,
        usage: TextUse,
        before: Vec<Piece<Tree>>,
        piece: String,
        t: Box<Tree>,
    ) -> Result<Mode, ParseFault>
        ensures { Turns result self.new (m.have_turn (tree_in t) (m.text_part (text_use_of usage) (map piece_of before.items) (text_of piece) ∷ waiting self.old) (ahead self.old)) }
    {
        let before = with_piece(before, piece, t)?;
        self.expect(Symbol::RightParenthesis)?;
        Ok(Mode::Text(usage, before))
    }

    #[tactic(auto, unfolding(crate::specs::laws::Machine::have_turn, crate::specs::private::Parsing::next_of))]
    fn entry_key(&mut self, entries: Vec<Entry<Tree>>, t: Box<Tree>) -> Result<Mode, ParseFault>
        ensures { Turns result self.new (m.have_turn (tree_in t) (m.entry_key (map named_entry entries.items) ∷ waiting self.old) (ahead self.old)) }
    {
        self.wait(Frame::Object(ObjectFrame::EntryValue(entries, ValueKey::Computed(t))))?;
        self.expect(Symbol::RightParenthesis)?;
        self.expect(Symbol::Colon)?;
        Ok(Mode::WantValue)
    }

    #[tactic(auto, unfolding(crate::specs::laws::Machine::have_turn, crate::specs::private::Parsing::next_of))]
    fn entry_value(
        &mut self,
        entries: Vec<Entry<Tree>>,
        key: ValueKey,
        t: Box<Tree>,
    ) -> Result<Mode, ParseFault>
        ensures { Turns result self.new (m.have_turn (tree_in t) (m.entry_value (map named_entry entries.items) (value_key_of key) ∷ waiting self.old) (ahead self.old)) }
    {
        let entry = entry_with(self.alloc, key, t)?;
        self.add_entry(entries, entry)
    }

    #[tactic(auto, unfolding(crate::specs::laws::Machine::have_turn, crate::specs::private::Parsing::next_of))]
    fn member_key(&mut self, members: Vec<Member>, t: Box<Tree>) -> Result<Mode, ParseFault>
        ensures { Turns result self.new (m.have_turn (tree_in t) (m.member_key (map named_as_part members.items) ∷ waiting self.old) (ahead self.old)) }
    {
        self.wait(Frame::Pattern(PatternFrame::PatternMember(members, PartKey::Tree(t))))?;
        self.expect(Symbol::RightParenthesis)?;
        self.expect(Symbol::Colon)?;
        Ok(Mode::WantPattern)
    }

    #[tactic(auto, using(crate::proofs::Tests::value_tests), unfolding(crate::specs::laws::Machine::value_turn, crate::specs::private::Parsing::next_of))]
    fn value_read(&mut self, t: Box<Tree>) -> Result<Mode, ParseFault>
        ensures { Turns result self.new (m.value_turn (tree_in t) (waiting self.old) (ahead self.old)) }
    {
        if self.take(Symbol::Bar) {
            self.wait(Frame::Object(ObjectFrame::ValuePiped(t)))?;
            return Ok(Mode::WantValue);
        }
        Ok(Mode::Have(t))
    }

    #[tactic(auto, unfolding(crate::specs::laws::Machine::have_turn, crate::specs::private::Parsing::next_of))]
    fn definition_body(
        &mut self,
        usage: DefinitionUse,
        head: Head,
        t: Box<Tree>,
    ) -> Result<Mode, ParseFault>
        ensures { Turns result self.new (m.have_turn (tree_in t) (definition_frame_of usage head ∷ waiting self.old) (ahead self.old)) }
    {
        self.expect(Symbol::Semicolon)?;
        Ok(Mode::AfterDefinition(usage, Definition { head, body: t }))
    }

    #[tactic(auto, unfolding(crate::specs::laws::Machine::after_definition_turn, crate::specs::private::Parsing::next_of))]
    pub(crate) fn after_definition(
        &mut self,
        usage: DefinitionUse,
        definition: Definition,
    ) -> Result<Mode, ParseFault>
        ensures { Turns result self.new (m.after_definition_turn (definition_use_of usage) (definition_of definition) (waiting self.old) (ahead self.old)) }
    {
        match usage {
            DefinitionUse::InPipe(before) => {
                self.wait(Frame::Scope(ScopeFrame::DefinitionRest(before, definition)))?;
                Ok(Mode::WantPipe(None))
            }
            DefinitionUse::InMain => {
                self.wait(Frame::Scope(ScopeFrame::MainRest(definition)))?;
                Ok(Mode::WantMain)
            }
        }
    }

    #[tactic(auto, unfolding(crate::specs::laws::Machine::have_turn, crate::specs::private::Parsing::next_of))]
    fn definition_rest(
        &mut self,
        before: Option<Box<Tree>>,
        definition: Definition,
        t: Box<Tree>,
    ) -> Result<Mode, ParseFault>
        ensures { Turns result self.new (m.have_turn (tree_in t) (m.definition_rest (maybe before) (definition_of definition) ∷ waiting self.old) (ahead self.old)) }
    {
        let t = define(self.alloc, definition, t)?;
        let t = with_comma(self.alloc, before, t)?;
        Ok(Mode::Have(t))
    }

    #[tactic(auto, unfolding(crate::specs::laws::Machine::have_turn, crate::specs::private::Parsing::next_of))]
    fn label_rest(
        &mut self,
        before: Option<Box<Tree>>,
        name: String,
        t: Box<Tree>,
    ) -> Result<Mode, ParseFault>
        ensures { Turns result self.new (m.have_turn (tree_in t) (m.label_rest (maybe before) (text_of name) ∷ waiting self.old) (ahead self.old)) }
    {
        let t = boxed(self.alloc, Tree::Label(name, t))?;
        let t = with_comma(self.alloc, before, t)?;
        Ok(Mode::Have(t))
    }

    #[tactic(auto, unfolding(crate::specs::laws::Machine::have_turn, crate::specs::private::Parsing::next_of))]
    fn binding_rest(
        &mut self,
        before: Option<Box<Tree>>,
        a: Box<Tree>,
        x: Box<Pattern>,
        t: Box<Tree>,
    ) -> Result<Mode, ParseFault>
        ensures { Turns result self.new (m.have_turn (tree_in t) (m.binding_rest (maybe before) (tree_in a) (pattern_in x) ∷ waiting self.old) (ahead self.old)) }
    {
        let t = boxed(self.alloc, Tree::BindAs(a, x, t))?;
        let t = with_comma(self.alloc, before, t)?;
        Ok(Mode::Have(t))
    }

    #[tactic(auto, using(crate::proofs::Tests::end_tests), unfolding(crate::specs::laws::Machine::end_turn, crate::specs::private::Parsing::next_of))]
    fn finish(&mut self, t: Box<Tree>) -> Result<Mode, ParseFault>
        ensures { Turns result self.new (m.end_turn (tree_in t) (ahead self.old)) }
    {
        if self.at_end() {
            return Ok(Mode::Done(t));
        }
        Err(ParseFault::Syntax)
    }

    #[tactic(auto, unfolding(crate::specs::laws::Machine::have_turn, crate::specs::private::Parsing::next_of))]
    fn ends_operand(&mut self, before: Option<Box<Tree>>, t: Box<Tree>) -> Result<Mode, ParseFault>
        ensures { Turns result self.new (m.have_turn (tree_in t) (m.ends_operand (maybe before) ∷ waiting self.old) (ahead self.old)) }
    {
        let t = with_comma(self.alloc, before, t)?;
        Ok(Mode::Listed(t))
    }

    #[tactic(auto, using(crate::proofs::Tests::pattern_waits), unfolding(crate::specs::laws::Machine::have_turn))]
    pub(crate) fn have(&mut self, t: Box<Tree>) -> Result<Mode, ParseFault>
        ensures { Turns result self.new (m.have_turn (tree_in t) (waiting self.old) (ahead self.old)) }
    {
        match self.frames.pop_front() {
            None => self.finish(t),
            Some(Frame::Operator(frame)) => self.after_operator(frame, t),
            Some(Frame::Scope(frame)) => self.after_scope(frame, t),
            Some(Frame::Term(frame)) => self.after_term(frame, t),
            Some(Frame::Block(frame)) => self.after_block(frame, t),
            Some(Frame::Object(frame)) => self.after_object(frame, t),
            Some(Frame::Pattern(frame)) => {
                drop(frame);
                drop(t);
                Err(ParseFault::Syntax)
            }
        }
    }

    #[tactic(auto, unfolding(crate::specs::laws::Machine::have_turn, crate::specs::private::Parsing::next_of))]
    fn after_operator(&mut self, frame: OperatorFrame, t: Box<Tree>) -> Result<Mode, ParseFault>
        ensures { Turns result self.new (m.have_turn (tree_in t) (operator_frame_of frame ∷ waiting self.old) (ahead self.old)) }
    {
        match frame {
            OperatorFrame::Negated => whole(boxed(self.alloc, Tree::Negation(t))),
            OperatorFrame::Tried => self.tried(t),
            OperatorFrame::Caught(a) => whole(boxed(self.alloc, Tree::TryCatch(a, t))),
            OperatorFrame::Climbing(upto) => Ok(Mode::Operators(t, 1, upto)),
            OperatorFrame::Operated(a, operator, l, upto) => self.operated(a, operator, l, upto, t),
            OperatorFrame::Operand(before, is_post) => self.operand(before, t, is_post),
            OperatorFrame::EndsOperand(before) => self.ends_operand(before, t),
            OperatorFrame::Piped(a) => whole(boxed(self.alloc, Tree::Pipe(a, t))),
        }
    }

    #[tactic(auto, unfolding(crate::specs::laws::Machine::have_turn, crate::specs::private::Parsing::next_of))]
    fn after_scope(&mut self, frame: ScopeFrame, t: Box<Tree>) -> Result<Mode, ParseFault>
        ensures { Turns result self.new (m.have_turn (tree_in t) (scope_frame_of frame ∷ waiting self.old) (ahead self.old)) }
    {
        match frame {
            ScopeFrame::DefinitionBody(usage, head) => self.definition_body(usage, head, t),
            ScopeFrame::DefinitionRest(before, definition) => self.definition_rest(
                before, definition, t,
            ),
            ScopeFrame::MainRest(definition) => whole(define(self.alloc, definition, t)),
            ScopeFrame::LabelRest(before, name) => self.label_rest(before, name, t),
            ScopeFrame::BindingRest(before, a, x) => self.binding_rest(before, a, x, t),
        }
    }

    #[tactic(auto, unfolding(crate::specs::laws::Machine::have_turn, crate::specs::private::Parsing::next_of))]
    fn after_term(&mut self, frame: TermFrame, t: Box<Tree>) -> Result<Mode, ParseFault>
        ensures { Turns result self.new (m.have_turn (tree_in t) (term_frame_of frame ∷ waiting self.old) (ahead self.old)) }
    {
        match frame {
            TermFrame::InParentheses => self.closed(Symbol::RightParenthesis, false, Ok(t)),
            TermFrame::InArray => {
                let array = boxed(self.alloc, Tree::Array(t));
                self.closed(Symbol::RightBracket, false, array)
            }
            TermFrame::Argument(name, arguments) => self.argument(name, arguments, t),
            TermFrame::PartOf(a) => self.part(a, t),
            TermFrame::SliceEnd(a, from) => {
                let slice = boxed(self.alloc, Tree::Slice(a, from, t, false));
                self.closed(Symbol::RightBracket, true, slice)
            }
            TermFrame::SliceTo(a) => self.slice_to(a, t),
            TermFrame::TextPart(usage, before, piece) => self.text_part(usage, before, piece, t),
        }
    }

    #[tactic(auto, unfolding(crate::specs::laws::Machine::have_turn, crate::specs::private::Parsing::next_of))]
    fn after_block(&mut self, frame: BlockFrame, t: Box<Tree>) -> Result<Mode, ParseFault>
        ensures { Turns result self.new (m.have_turn (tree_in t) (block_frame_of frame ∷ waiting self.old) (ahead self.old)) }
    {
        match frame {
            BlockFrame::BranchTest(branches) => self.branch_test(branches, t),
            BlockFrame::BranchHolds(branches, a) => self.branch_read(branches, a, t),
            BlockFrame::BranchFails(branches) => self.branch_fails(branches, t),
            BlockFrame::FoldSource(fold) => self.fold_source(fold, t),
            BlockFrame::FoldStart(fold, a, x) => {
                let next = Frame::Block(BlockFrame::FoldUpdate(fold, a, x, t));
                self.pipe_after(Symbol::Semicolon, next)
            }
            BlockFrame::FoldUpdate(fold, a, x, b) => self.fold_update(fold, a, x, b, t),
            BlockFrame::FoldExtract(a, x, b, c) => {
                let foreach = boxed(self.alloc, Tree::Foreach(a, x, b, c, t));
                self.closed(Symbol::RightParenthesis, false, foreach)
            }
        }
    }

    #[tactic(auto, unfolding(crate::specs::laws::Machine::have_turn, crate::specs::private::Parsing::next_of))]
    fn after_object(&mut self, frame: ObjectFrame, t: Box<Tree>) -> Result<Mode, ParseFault>
        ensures { Turns result self.new (m.have_turn (tree_in t) (object_frame_of frame ∷ waiting self.old) (ahead self.old)) }
    {
        match frame {
            ObjectFrame::EntryKey(entries) => self.entry_key(entries, t),
            ObjectFrame::EntryValue(entries, key) => self.entry_value(entries, key, t),
            ObjectFrame::EndsValue => self.value_read(t),
            ObjectFrame::ValuePiped(a) => whole(boxed(self.alloc, Tree::Pipe(a, t))),
            ObjectFrame::MemberKey(members) => self.member_key(members, t),
        }
    }
}
