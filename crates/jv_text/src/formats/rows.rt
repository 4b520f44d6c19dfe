// The formats of rows, and how they differ.
ghost use Rattle.std.specs.Prelude.{◌≡◌, true};
ghost use Rattle.std.specs.Char.{is_ascii};
ghost use Rattle.std.specs.List.{list_all};
ghost use Rattle.std.specs.Str.{chars};

use crate::formats::escapes::Escapes;

/// A format of rows.
#[derive(Clone, Copy, Debug, PartialEq, Eq)]
pub(crate) enum RowFormat {
    Csv,
    Tsv,
    Sh,
}

impl RowFormat {
    ghost use Rattle.jv_text.specs.private.Rows.{between, escapes_of, field_error, null_in, quote};

    /// The separator between two fields.
    #[tactic(auto, unfolding(crate::proofs::Literals::literal))]
    pub(crate) fn separator(self) -> &'static str
        ensures { chars result.now ≡ between self }
    {
        match self {
            RowFormat::Csv => ",",
            RowFormat::Tsv => "\t",
            RowFormat::Sh => " ",
        }
    }

    /// The quote around a string.
    #[tactic(auto, unfolding(crate::proofs::Literals::literal))]
    pub(crate) fn quote(self) -> &'static str
        ensures { chars result.now ≡ quote self }
    {
        match self {
            RowFormat::Csv => "\"",
            RowFormat::Tsv => "",
            RowFormat::Sh => "'",
        }
    }

    pub(crate) fn escapes(self) -> Escapes
        ensures { result ≡ escapes_of self }
    {
        match self {
            RowFormat::Csv => Escapes::Csv,
            RowFormat::Tsv => Escapes::Tsv,
            RowFormat::Sh => Escapes::Sh,
        }
    }

    /// The field of null.
    #[tactic(auto, unfolding(crate::proofs::Literals::literal))]
    pub(crate) fn null(self) -> &'static str
        ensures { chars result.now ≡ null_in self }
    {
        match self {
            RowFormat::Csv => "",
            RowFormat::Tsv => "",
            RowFormat::Sh => "null",
        }
    }

    /// Why an array or an object is no field.
    pub(crate) fn field_error(self) -> &'static str
        ensures text { result.now ≡ field_error self }
        ensures ascii { list_all is_ascii result.now ≡ true }
    {
        match self {
            RowFormat::Csv => " is not valid in a csv row",
            RowFormat::Tsv => " is not valid in a tsv row",
            RowFormat::Sh => " can not be escaped for shell",
        }
    }
}
