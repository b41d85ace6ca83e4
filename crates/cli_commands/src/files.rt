ghost use Rattle.std.specs.Prelude.{ℕ, List, Option, option_map, string_bytes};

use std::alloc::Global;

/// The source of the program's files.
pub trait Files {
    /// Holds for a name and each answer that `text` may give for it. Nothing is known of files that others may change,
    /// such as those of the system: for each name they may give any text, or none.
    ghost may_give: { Self → List ℕ → Option (List ℕ) → Type 0 } = { λ _ _ _. Unit {0} };

    /// The same of the bytes that `contents` may give.
    ghost may_hold: { Self → List ℕ → Option (List ℕ) → Type 0 } = { λ _ _ _. Unit {0} };

    /// The text of the file of this name. None if it can't be read: the file does not exist, is not UTF-8, or memory
    /// runs out.
    fn text(&self, name: &str) -> Option<String>
        ensures { may_give self.now name.now (option_map string_bytes result) };

    /// The bytes of the file of this name. None if it can't be read (see `text`), or is not a plain file.
    fn contents(&self, name: &str) -> Option<Vec<u8>>
        ensures { may_hold self.now name.now (option_map (λ bytes. bytes.items) result) };

    /// Whether a program writes the journal of this name now.
    fn is_written(&self, _name: &str) -> bool {
        false
    }

    /// Whether the name is a folder's.
    fn is_folder(&self, name: &str) -> bool;

    /// Gives each line of the file of this name, without its line feed; the last line needs none. None if the file
    /// can't be read. Some lines may have been given before that.
    fn each_row<T: Rows>(&self, _alloc: Global, name: &str, rows: &mut T) -> Option<()> {
        let text = self.text(name)?;
        let text = text.as_str();
        if text.is_empty() {
            return Some(());
        }
        let text = text.strip_suffix('\n').unwrap_or(text);
        for row in text.split('\n') {
            rows.row(row);
        }
        Some(())
    }
}

/// Receives the lines of a text.
pub trait Rows {
    fn row(&mut self, row: &str);
}
