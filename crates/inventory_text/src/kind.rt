//! What a file is.
ghost use Rattle.std.specs.Prelude.{◌≡◌};

/// What a file is, by the values of the keyword `type` in mtree(5).
#[derive(Clone, Copy, Debug, PartialEq, Eq)]
pub enum FileKind {
    /// A device of blocks.
    Block,
    /// A device of characters.
    Character,
    /// A directory.
    Directory,
    /// A pipe with a name.
    Fifo,
    /// A regular file.
    Regular,
    /// A symbolic link.
    Link,
    /// A socket.
    Socket,
}

impl FileKind {
    ghost use Rattle.inventory_text.specs.Writing.{kind_word};

    /// Its value of the keyword `type`.
    pub fn word(self) -> &'static [u8]
        ensures { result.now ≡ kind_word self }
    {
        match self {
            FileKind::Block => b"block",
            FileKind::Character => b"char",
            FileKind::Directory => b"dir",
            FileKind::Fifo => b"fifo",
            FileKind::Regular => b"file",
            FileKind::Link => b"link",
            FileKind::Socket => b"socket",
        }
    }
}
