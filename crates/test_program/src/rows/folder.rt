use cli_commands::files::Files;
use std::{fs, rt};

/// The files of a case: those of its own folder, and the shared files of the folder `lines`.
#[derive(Clone, Copy)]
pub struct Folder<'a, R> {
    pub rt: &'a R,
    pub name: &'a str,
}

impl<R: rt::Files + AllocGlobal> Folder<'_, R> {
    /// The bytes of a file of its own folder.
    pub fn bytes(&self, file: &str) -> Option<Vec<u8>> {
        let path = format!(in self.rt.alloc(); "rows/{}/{file}", self.name).ok()?;
        fs::read(self.rt, path.as_str()).ok()
    }

    // The text of the file of this name, and after it the text of the file `NAME-again`. The file `NAME-times` has the
    // number of times.
    fn with_more(&self, name: &str, mut text: String) -> Option<String> {
        let file = format!(in self.rt.alloc(); "{name}-again").ok()?;
        let Some(bytes) = self.bytes(file.as_str()) else {
            return Some(text);
        };
        let more = String::from_utf8(bytes).ok()?;
        let file = format!(in self.rt.alloc(); "{name}-times").ok()?;
        for _ in 0..self.number(file.as_str())? {
            text.push_str(more.as_str()).ok()?;
        }
        Some(text)
    }

    /// The number in a file of its own folder.
    pub fn number(&self, file: &str) -> Option<u32> {
        let text = String::from_utf8(self.bytes(file)?).ok()?;
        text.trim().parse().ok()
    }
}

impl<R: rt::Files + AllocGlobal> Files for Folder<'_, R> {
    fn text(&self, name: &str) -> Option<String> {
        if let Some(bytes) = self.bytes(name) {
            return self.with_more(name, String::from_utf8(bytes).ok()?);
        }
        let path = format!(in self.rt.alloc(); "lines/{name}").ok()?;
        fs::read_to_string(self.rt, path.as_str()).ok()
    }

    fn contents(&self, name: &str) -> Option<Vec<u8>> {
        match self.text(name) {
            Some(text) => Some(text.into_bytes()),
            None => self.bytes(name),
        }
    }

    // The journals of a case with the file `writer` are written by a program.
    fn is_written(&self, _name: &str) -> bool {
        self.bytes("writer").is_some()
    }

    fn is_folder(&self, name: &str) -> bool {
        let Ok(path) = format!(in self.rt.alloc(); "rows/{}/{name}", self.name) else {
            return false;
        };
        match fs::metadata(self.rt, path.as_str()) {
            Ok(found) => found.is_dir(),
            Err(_) => false,
        }
    }
}
