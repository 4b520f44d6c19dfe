// Strings, and the entries of objects.
ghost use Rattle.std.specs.Prelude.{◌∷◌, ◌++◌, [], map, None};
ghost use Rattle.jv_data.specs.Text.{text_of};
ghost use Rattle.jq_tree.specs.Token as token;
ghost use Rattle.jq_ast.specs.Named.{named_as_part, named_entry};
ghost use Rattle.jq_lexer.specs.Views.{symbol_of, keyword_of};
ghost use Rattle.jq_parser.specs.laws.Machine as m;
ghost use Rattle.jq_builders.specs.Trees as built;
ghost use Rattle.jq_builders.specs.Trees.{keyed_by};
ghost use Rattle.jq_builders.specs.Views.{tree_in, piece_of, pieces_of, entry_key_of};
ghost use Rattle.jq_parser.specs.private.Parsing.{Turns, ahead, waiting, text_use_of};

use crate::faults::ParseFault;
use crate::forms::{Frame, Mode, ObjectFrame, TermFrame, TextUse, suffixed};
use crate::parser::Parser;
use jq_ast::{Entry, Member, Piece, Tree, boxed};
use jq_builders::parts::{EntryKey, PartKey, Text, ValueKey};
use jq_builders::trees::{
    entry_without_value, formatted_tree, object_tree, text_tree, variable_entry, with_entry,
};
use jq_builders::words::word_text;
use jq_lexer::{Keyword, Symbol, Token};

impl Parser {
    #[tactic(auto, using(crate::proofs::Tests::text_stops), unfolding(crate::specs::laws::Machine::text_turn, crate::specs::private::Parsing::next_of))]
    pub(crate) fn text(
        &mut self,
        usage: TextUse,
        before: Vec<Piece<Tree>>,
    ) -> Result<Mode, ParseFault>
        ensures { Turns result self.new (m.text_turn (text_use_of usage) (map piece_of before.items) (waiting self.old) (ahead self.old)) }
    {
        let Some(piece) = self.piece() else {
            return Err(ParseFault::Syntax);
        };
        self.after_piece(usage, before, piece)
    }

    /// A string that begins with this piece.
    #[tactic(auto, unfolding(crate::specs::private::Parsing::next_of))]
    pub(crate) fn begin_text(&mut self, usage: TextUse, piece: String) -> Result<Mode, ParseFault>
        ensures { Turns result self.new (m.go (m.text (text_use_of usage) []) (waiting self.old) (token.piece (text_of piece) ∷ ahead self.old)) }
    {
        self.put_back(Token::Piece(piece))?;
        Ok(Mode::Text(usage, Vec::new(self.alloc)))
    }

    #[tactic(auto, using(crate::proofs::Tests::piece_tests), unfolding(crate::specs::laws::Machine::piece_turn, crate::specs::private::Parsing::next_of))]
    fn after_piece(
        &mut self,
        usage: TextUse,
        before: Vec<Piece<Tree>>,
        piece: String,
    ) -> Result<Mode, ParseFault>
        ensures { Turns result self.new (m.piece_turn (text_use_of usage) (map piece_of before.items) (text_of piece) (waiting self.old) (ahead self.old)) }
    {
        if self.take_interpolation() {
            self.wait(Frame::Term(TermFrame::TextPart(usage, before, piece)))?;
            return Ok(Mode::WantPipe(None));
        }
        Ok(Mode::TextDone(
            usage,
            Text {
                pieces: before,
                last: piece,
            },
        ))
    }

    #[tactic(auto, unfolding(crate::specs::laws::Machine::text_done_turn, crate::specs::private::Parsing::next_of))]
    pub(crate) fn text_done(&mut self, usage: TextUse, text: Text) -> Result<Mode, ParseFault>
        ensures { Turns result self.new (m.text_done_turn (text_use_of usage) (pieces_of text) (waiting self.old) (ahead self.old)) }
    {
        match usage {
            TextUse::Term => suffixed(false, text_tree(self.alloc, text)),
            TextUse::Formatted(format) => suffixed(false, formatted_tree(self.alloc, format, text)),
            TextUse::PartOfInput => self.text_of_input(text),
            TextUse::PartOf(a) => self.text_part_of(a, text),
            TextUse::Key(entries) => self.key(entries, EntryKey::Text(text)),
            TextUse::FormattedKey(entries, format) => self.key(
                entries,
                EntryKey::Formatted(format, text),
            ),
            TextUse::PartKey(members) => self.text_part_key(members, text),
        }
    }

    #[tactic(auto, unfolding(crate::specs::laws::Machine::text_done_turn, crate::specs::private::Parsing::next_of))]
    fn text_part_of(&mut self, a: Box<Tree>, text: Text) -> Result<Mode, ParseFault>
        ensures { Turns result self.new (m.text_done_turn (m.as_part_of (tree_in a)) (pieces_of text) (waiting self.old) (ahead self.old)) }
    {
        let key = text_tree(self.alloc, text)?;
        let t = boxed(self.alloc, Tree::Index(a, key, false))?;
        Ok(Mode::Suffix(true, t))
    }

    #[tactic(auto, unfolding(crate::specs::laws::Machine::text_done_turn, crate::specs::private::Parsing::next_of))]
    fn text_part_key(&mut self, members: Vec<Member>, text: Text) -> Result<Mode, ParseFault>
        ensures { Turns result self.new (m.text_done_turn (m.as_part_key (map named_as_part members.items)) (pieces_of text) (waiting self.old) (ahead self.old)) }
    {
        let key = text_tree(self.alloc, text)?;
        self.part_key(members, PartKey::Tree(key))
    }

    #[tactic(auto, unfolding(crate::specs::laws::Machine::text_done_turn, crate::specs::private::Parsing::next_of))]
    fn text_of_input(&mut self, text: Text) -> Result<Mode, ParseFault>
        ensures { Turns result self.new (m.text_done_turn m.as_part_of_input (pieces_of text) (waiting self.old) (ahead self.old)) }
    {
        let input = boxed(self.alloc, Tree::Identity)?;
        self.text_part_of(input, text)
    }

    #[tactic(auto, using(crate::proofs::Tests::key_tests), unfolding(crate::specs::laws::Machine::key_turn, crate::specs::private::Parsing::next_of))]
    fn key(&mut self, entries: Vec<Entry<Tree>>, key: EntryKey) -> Result<Mode, ParseFault>
        ensures { Turns result self.new (m.key_turn (map named_entry entries.items) (entry_key_of key) (waiting self.old) (ahead self.old)) }
    {
        if self.take(Symbol::Colon) {
            self.valued(entries, key)
        } else {
            self.valueless(entries, key)
        }
    }

    /// After the colon of an entry's key.
    #[tactic(auto, unfolding(crate::specs::private::Parsing::next_of))]
    fn valued(&mut self, entries: Vec<Entry<Tree>>, key: EntryKey) -> Result<Mode, ParseFault>
        ensures { Turns result self.new (m.go m.want_value (m.entry_value (map named_entry entries.items) (keyed_by (entry_key_of key)) ∷ waiting self.old) (ahead self.old)) }
    {
        self.wait(Frame::Object(ObjectFrame::EntryValue(entries, ValueKey::Keyed(key))))?;
        Ok(Mode::WantValue)
    }

    /// An entry that is only a key.
    #[tactic(auto, unfolding(crate::specs::private::Parsing::next_of))]
    fn valueless(&mut self, entries: Vec<Entry<Tree>>, key: EntryKey) -> Result<Mode, ParseFault>
        ensures { Turns result self.new (m.go (m.after_entry (map named_entry entries.items ++ built.entry_of (entry_key_of key) None ∷ [])) (waiting self.old) (ahead self.old)) }
    {
        let entry = entry_without_value(self.alloc, key)?;
        self.add_entry(entries, entry)
    }

    #[tactic(auto, unfolding(crate::specs::private::Parsing::next_of))]
    pub(crate) fn add_entry(
        &mut self,
        entries: Vec<Entry<Tree>>,
        entry: Entry<Tree>,
    ) -> Result<Mode, ParseFault>
        ensures { Turns result self.new (m.go (m.after_entry (map named_entry entries.items ++ named_entry entry ∷ [])) (waiting self.old) (ahead self.old)) }
    {
        let entries = with_entry(entries, entry)?;
        Ok(Mode::AfterEntry(entries))
    }

    #[tactic(auto, unfolding(crate::specs::laws::Machine::entry_turn, crate::specs::private::Parsing::next_of))]
    pub(crate) fn entry(&mut self, entries: Vec<Entry<Tree>>) -> Result<Mode, ParseFault>
        ensures { Turns result self.new (m.entry_turn (map named_entry entries.items) (waiting self.old) (ahead self.old)) }
    {
        let Some(token) = self.tokens.pop_front() else {
            return Err(ParseFault::Syntax);
        };
        match token {
            Token::Variable(name) => self.variable_entry(entries, name),
            Token::Name(name) => self.key(entries, EntryKey::Word(name)),
            Token::Keyword(word) => self.word_entry(entries, word),
            Token::Piece(piece) => self.begin_text(TextUse::Key(entries), piece),
            Token::Format(format) => Ok(Mode::Text(
                TextUse::FormattedKey(entries, format),
                Vec::new(self.alloc),
            )),
            Token::Symbol(symbol) => self.symbol_entry(entries, symbol),
            other => {
                drop(entries);
                Err(self.refused(other))
            }
        }
    }

    #[tactic(auto, unfolding(crate::specs::laws::Machine::entry_turn, crate::specs::private::Parsing::next_of))]
    fn variable_entry(
        &mut self,
        entries: Vec<Entry<Tree>>,
        name: String,
    ) -> Result<Mode, ParseFault>
        ensures { Turns result self.new (m.entry_turn (map named_entry entries.items) (waiting self.old) (token.variable (text_of name) ∷ ahead self.old)) }
    {
        let entry = variable_entry(self.alloc, name)?;
        self.add_entry(entries, entry)
    }

    #[tactic(auto, unfolding(crate::specs::laws::Machine::entry_turn, crate::specs::private::Parsing::next_of))]
    fn word_entry(&mut self, entries: Vec<Entry<Tree>>, word: Keyword) -> Result<Mode, ParseFault>
        ensures { Turns result self.new (m.entry_turn (map named_entry entries.items) (waiting self.old) (token.keyword (keyword_of word) ∷ ahead self.old)) }
    {
        let name = word_text(self.alloc, word)?;
        self.key(entries, EntryKey::Word(name))
    }

    #[tactic(auto, unfolding(crate::specs::laws::Machine::entry_turn, crate::specs::private::Parsing::next_of))]
    fn symbol_entry(
        &mut self,
        entries: Vec<Entry<Tree>>,
        symbol: Symbol,
    ) -> Result<Mode, ParseFault>
        ensures { Turns result self.new (m.entry_turn (map named_entry entries.items) (waiting self.old) (token.symbol (symbol_of symbol) ∷ ahead self.old)) }
    {
        match symbol {
            Symbol::LeftParenthesis => {
                self.wait(Frame::Object(ObjectFrame::EntryKey(entries)))?;
                Ok(Mode::WantPipe(None))
            }
            other => Err(self.refused(Token::Symbol(other))),
        }
    }

    #[tactic(auto, using(crate::proofs::Tests::after_entry_tests), unfolding(crate::specs::laws::Machine::after_entry_turn, crate::specs::private::Parsing::next_of))]
    pub(crate) fn after_entry(&mut self, entries: Vec<Entry<Tree>>) -> Result<Mode, ParseFault>
        ensures { Turns result self.new (m.after_entry_turn (map named_entry entries.items) (waiting self.old) (ahead self.old)) }
    {
        if self.take(Symbol::Comma) {
            return Ok(Mode::Entry(entries));
        }
        if self.take(Symbol::RightBrace) {
            let t = object_tree(self.alloc, entries)?;
            return Ok(Mode::Suffix(false, t));
        }
        Err(ParseFault::Syntax)
    }
}
