// Pieces of a line, put one behind the other. Each function answers the place behind its piece, which never lies past the line's end.
// Most pieces are short: they are put byte by byte, since the library's copy is a call of its own for each.
ghost use Rattle.desk_text.specs.Put.{Put};

pub fn put(line: &mut [u8], at: usize, s: &[u8]) -> usize
    ensures { Put at s.now result line.old line.new }
{
    let start = at.min(line.len());
    for i in 0..s.len() {
        if line.len() <= start + i {
            return start + i;
        }
        line[start + i] = s[i];
    }
    start + s.len()
}
