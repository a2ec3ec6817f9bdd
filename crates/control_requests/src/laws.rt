//! The laws of rows, over every list of them.
ghost use Rattle.std.specs.Prelude.{◌≡◌, [], ◌∷◌, ◌++◌, List, codes};
ghost use Rattle.serde_json.specs.Data.{Members, object};
ghost use Rattle.serde_json.specs.Written.{compact_text};
ghost use Rattle.control_requests.specs.Rows.{followed, rows_text, list_text, list_data};

/// Rows that are pushed one after the other are the JSON of their list, whatever the rows are. A law about definitions, for
/// provers; the call does nothing.
pub fn rows_are_json()
    ensures none { rows_text [] ≡ [] }
    ensures one_more { (rows : List Members) (row : Members) →
        followed (rows_text rows) (compact_text (object row)) ≡ rows_text (rows ++ row ∷ []) }
    ensures peers { (rows : List Members) →
        list_text (codes "peers") (rows_text rows) ≡ compact_text (list_data (codes "peers") rows) }
    ensures calls { (rows : List Members) →
        list_text (codes "calls") (rows_text rows) ≡ compact_text (list_data (codes "calls") rows) }
{}
