// Files in memory, of which one is read.
ghost use Rattle.std.specs.Prelude.{◌≡◌, ◌++◌, Some, take, length, min};
ghost use Rattle.std.specs.Option.{option_map};
ghost use Rattle.std.specs.String.{string_bytes};
ghost use Rattle.xn_io.specs.Input.{entries, entry_of};
ghost use Rattle.xn_io.specs.Shelf.{begun_bytes};

/// Files by their names, the name that was begun last, and how many bytes of it were read.
#[derive(Drop)]
pub struct Shelf {
    files: Vec<(String, Vec<u8>)>,
    name: Option<String>,
    got: usize,
}

impl Shelf {
    ghost use Rattle.std.specs.Prelude.{◌+◌, ◌<◌, ◌^◌, ◌↔◌, IsTrue, IsSome, None};
    ghost use Rattle.xn_io.specs.Shelf.{files_of, name_of, got_of, left_of, BeginsName, ReadsBytes};

    /// No name is begun.
    pub fn new(files: Vec<(String, Vec<u8>)>) -> Shelf
        ensures files { files_of result ≡ entries files.items }
        ensures name { name_of result ≡ None }
    {
        Shelf {
            files,
            name: None,
            got: 0,
        }
    }

    /// Begins a name, and says whether it is listed.
    pub fn begin(&mut self, file: String) -> bool
        ensures listed { IsTrue result ↔ IsSome (entry_of (files_of self.old) (string_bytes file)) }
        ensures begins { BeginsName self.old self.new (string_bytes file) }
    {
        let is_listed = find(&self.files, file.as_str()).is_some();
        self.name = Some(file);
        self.got = 0;
        is_listed
    }

    /// Reads at most so many bytes of the begun name into the front of a buffer, and says how many.
    pub fn read(&mut self, most: usize, buf: &mut [u8]) -> usize
        ensures amount { result ≡ min (length buf.new) (min most (length (left_of self.old))) }
        ensures reads { ReadsBytes self.old self.new result buf.new }
    {
        let count = copy_front(self.left(), most, buf);
        self.got += count;
        count
    }

    // What of the begun name isn't read yet.
    fn left(&self) -> &[u8]
        ensures left { result.now ≡ left_of self.now }
        ensures fits { got_of self.now + length result.now < 2 ^ 64 }
    {
        let bytes = begun(&self.files, &self.name);
        if self.got < bytes.len() {
            &bytes[self.got..]
        } else {
            &[]
        }
    }
}

// The bytes of the first file with this name, if there is one.
fn find<'a>(files: &'a [(String, Vec<u8>)], name: &str) -> Option<&'a [u8]>
    ensures { option_map (λ bytes. bytes.now) result ≡ entry_of (entries files.now) name.now }
{
    for file in files {
        if name == file.0.as_str() {
            return Some(&file.1);
        }
    }
    None
}

// The bytes of the begun name, and none without one.
fn begun<'a>(files: &'a [(String, Vec<u8>)], name: &Option<String>) -> &'a [u8]
    ensures { result.now ≡ begun_bytes (entries files.now) (option_map string_bytes name.now) }
{
    match name {
        Some(name) => find(files, name.as_str()).unwrap_or(&[]),
        None => &[],
    }
}

// Puts the first bytes of a list, at most so many, into the front of a buffer, and says how many.
fn copy_front(bytes: &[u8], most: usize, buf: &mut [u8]) -> usize
    ensures amount { result ≡ min (length buf.new) (min most (length bytes.now)) }
    ensures bytes { take result buf.new ≡ take result bytes.now }
{
    let count = buf.len().min(most).min(bytes.len());
    buf[..count].copy_from_slice(&bytes[..count]);
    count
}
