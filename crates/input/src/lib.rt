#![tactic(auto)]

// What the programs read.
ghost use Rattle.std.specs.Prelude.{◌≡◌, ◌≤◌, take, vec_len, IfOk, IfSome};

use std::alloc::Global;
use std::fs::{File, Files};
use std::io;
use std::io::Read;

// One byte more than a text may have, so that a longer one is refused by its size and never read to its end.
const TEXT_BYTES: usize = 32_769;

// The first bytes that a reader gives, at most so many.
pub fn read_first<R: Read + Drop>(heap: Global, from: R, most: usize) -> io::Result<Vec<u8>>
    ensures first { IfOk result (λ v. IfSome (R.Read.remaining from) (λ bytes. v.items ≡ take most bytes)) }
    ensures few { IfOk result (λ v. vec_len v ≤ most) }
{
    let mut bytes = Vec::new(heap);
    from.take(most as u64).read_to_end(&mut bytes)?;
    // drops nothing: no clause says so of a reader that says nothing of its bytes
    bytes.truncate(most);
    Ok(bytes)
}

// A text, of a source or an allocation.
pub fn read_text<R: Read + Drop>(heap: Global, from: R) -> io::Result<Vec<u8>>
    ensures first { IfOk result (λ v. IfSome (R.Read.remaining from) (λ bytes. v.items ≡ take 32769 bytes)) }
    ensures few { IfOk result (λ v. vec_len v ≤ 32769) }
{
    read_first(heap, from, TEXT_BYTES)
}

// The text of a file.
pub fn read_file<F: Files>(heap: Global, files: &F, path: &str) -> io::Result<Vec<u8>>
    ensures { IfOk result (λ v. vec_len v ≤ 32769) }
{
    read_text(heap, File::open(files, path)?)
}

#[cfg(test)]
mod tests {
    use crate::{read_file, read_first, read_text};
    use std::fs;
    use std::test::Fail;

    const PATH: &str = "input_read_file_test";

    #[test]
    fn first_bytes(rt: HostRuntime) -> Result<(), Fail> {
        let text = b"source\t1\t1\t1\n";
        let all = read_text(rt.alloc(), text.as_slice())?;
        assert_eq!(rt; all.as_slice(), text.as_slice());
        let some = read_first(rt.alloc(), text.as_slice(), 6)?;
        assert_eq!(rt; some.as_slice(), b"source".as_slice());
        Ok(())
    }

    // a text, and one that is a byte longer than what is read of it
    #[test]
    fn bytes_of_a_file(rt: HostRuntime) -> Result<(), Fail> {
        let text = b"source\t1\t1\t1\n";
        fs::write(&rt, PATH, text.as_slice())?;
        let all = read_file(rt.alloc(), &rt, PATH)?;
        assert_eq!(rt; all.as_slice(), text.as_slice());
        let long = vec![in rt.alloc(); b'\n'; 32_770]?;
        fs::write(&rt, PATH, long.as_slice())?;
        let first = read_file(rt.alloc(), &rt, PATH)?;
        assert!(rt; first.as_slice() == &long[..32_769]);
        fs::remove_file(&rt, PATH)?;
        Ok(())
    }
}
