//! Places written out: into memory, and into writers that take so many bytes and then fail.
use boxes::{BoxRow, Boxes};
use listings::{Form, write_bytes, write_list, write_picture, write_rounds};
use plans::Plan;
use sequences::{Hammersley, Sobol};
use std::io;
use std::io::{ErrorKind, Write};
use std::process::Abort;
use std::test::Fail;

// A quarter of the panel with a coat of -3.
fn quarter() -> Result<Boxes, Fail> {
    let mut map = Boxes::new();
    map.replace(&[BoxRow {
        x0: 0,
        x1: 32768,
        y0: 0,
        y1: 32768,
        w: -3,
    }])?;
    Ok(map)
}

// A writer that has room for so many bytes.
#[derive(Drop)]
struct Room(usize);

impl Write for Room {
    fn write(&mut self, buf: &[u8]) -> io::Result<usize> {
        if self.0 == 0 {
            return Err(io::Error::from(ErrorKind::StorageFull));
        }
        let count = buf.len().min(self.0);
        self.0 -= count;
        Ok(count)
    }

    fn flush(&mut self) -> io::Result<()> {
        Ok(())
    }
}

#[test]
fn lists(rt: HostRuntime) -> Result<(), Fail> {
    let plan = Hammersley::new(2)?;
    let map = quarter()?;
    let mut text = Vec::new(rt.alloc());
    write_list(&plan, Some(&map), Form::Lines, &mut text)?;
    assert_eq!(rt;
        text.as_slice(),
        b"0 0 -3\n16384 32768 0\n32768 16384 0\n49152 49152 0\n".as_slice()
    );
    text.clear();
    write_list(&plan, Some(&map), Form::Csv, &mut text)?;
    assert_eq!(rt;
        text.as_slice(),
        b"x,y,coat\n0,0,-3\n16384,32768,0\n32768,16384,0\n49152,49152,0\n".as_slice()
    );
    text.clear();
    write_bytes(&plan, &mut text)?;
    assert_eq!(rt;
        text.as_slice(),
        b"\0\0\0\0\0\x40\0\x80\0\x80\0\x40\0\xc0\0\xc0".as_slice()
    );
    Ok(())
}

#[test]
fn lists_with_rounds(rt: HostRuntime) -> Result<(), Fail> {
    let map = quarter()?;
    let mut text = Vec::new(rt.alloc());
    write_rounds(&Sobol::new(2)?, Some(&map), Form::Csv, &mut text)?;
    assert_eq!(rt;
        text.as_slice(),
        b"x,y,rounds,coat\n0,0,0,-3\n32768,32768,1,0\n16384,49152,2,0\n49152,16384,2,0\n".as_slice()
    );
    text.clear();
    // A plan that counts no rounds has no column of them.
    let plan = Plan::Hammersley(Hammersley::new(1)?);
    write_rounds(&plan, None::<&Boxes>, Form::Csv, &mut text)?;
    assert_eq!(rt; text.as_slice(), b"x,y\n0,0\n32768,32768\n".as_slice());
    Ok(())
}

// Whoever has room for all of it is told of no error, and whoever has less is told of its own.
fn fails_below<F: Fn(&mut Room) -> io::Result<()>>(rt: &impl Abort, size: usize, write: F)
    requires { F.IsAlwaysCallable write }
{
    assert!(rt; write(&mut Room(size)).is_ok());
    for room in 0..size {
        let kind = write(&mut Room(room)).err().map(|error| error.kind());
        assert_eq!(rt;
            kind,
            Some(ErrorKind::StorageFull),
            "with room for {room} bytes"
        );
    }
}

#[test]
fn full_writers(rt: HostRuntime) -> Result<(), Fail> {
    let plan = Sobol::new(2)?;
    let map = quarter()?;
    // Four lines of 7, 14, 14 and 14 bytes.
    fails_below(
        &rt,
        49,
        |room| write_list(&plan, Some(&map), Form::Lines, room),
    );
    fails_below(
        &rt,
        57,
        |room| write_rounds(&plan, Some(&map), Form::Lines, room),
    );
    fails_below(&rt, 16, |room| write_bytes(&plan, room));
    Ok(())
}

// A picture of four places has more bytes than this.
#[test]
fn full_writers_of_pictures(rt: HostRuntime) -> Result<(), Fail> {
    let plan = Sobol::new(2)?;
    let map = quarter()?;
    for room in [0, 1, 500, 1000, 1500] {
        let kind = write_picture(&plan, Some(&map), &mut Room(room))
            .err()
            .map(|error| error.kind());
        assert_eq!(rt;
            kind,
            Some(ErrorKind::StorageFull),
            "with room for {room} bytes"
        );
    }
    Ok(())
}
