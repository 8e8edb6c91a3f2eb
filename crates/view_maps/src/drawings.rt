// Maps and schemas as they are drawn of files.
use crate::classes::{Class, classes_of};
use crate::fields::owned_by;
use crate::map_sheet::{put_fetch, put_table};
use crate::schema_sheet::put_create;
use crate::sheets::is_of_rows;
use crate::source::{Source, open};
use crate::texts::{put, put_bytes};
use qbs_base::{Bytes, NoMemory};
use std::alloc::Global;

/// What is drawn.
#[derive(Clone, Copy)]
enum Sheet {
    Map,
    Schema,
}

/// What has been drawn: the text, and the lines that stand at its end.
#[derive(Drop)]
struct Drawing {
    text: Vec<u8>,
    ends: Vec<u8>,
}

impl Drawing {
    fn put_class(
        &mut self,
        alloc: Global,
        sheet: Sheet,
        source: Source,
        class: &Class,
    ) -> Result<(), NoMemory> {
        let owned = owned_by(alloc, source, class.place)?;
        if !is_of_rows(source, class, &owned) {
            return Ok(());
        }
        match sheet {
            Sheet::Map => {
                put_table(&mut self.text, source, class, &owned)?;
                put_fetch(&mut self.ends, source, class)
            }
            Sheet::Schema => put_create(&mut self.text, source, class, &owned),
        }
    }

    fn put_file(&mut self, alloc: Global, sheet: Sheet, file: &[u8]) -> Result<(), NoMemory> {
        let Some(opened) = open(alloc, file)? else {
            return Ok(());
        };
        let source = opened.source();
        let classes = classes_of(alloc, source)?;
        for class in classes.as_slice() {
            self.put_class(alloc, sheet, source, class)?;
        }
        Ok(())
    }

    fn put_files(&mut self, alloc: Global, sheet: Sheet, files: &[Bytes]) -> Result<(), NoMemory> {
        for file in files {
            self.put_file(alloc, sheet, file.as_slice())?;
        }
        Ok(())
    }
}

/// The text, with what stands at its end.
fn ended(drawing: Drawing) -> Result<Vec<u8>, NoMemory> {
    let Drawing { mut text, ends } = drawing;
    put_bytes(&mut text, ends.as_slice())?;
    Ok(text)
}

/// What is drawn of files behind a first line.
fn drawn(alloc: Global, sheet: Sheet, first: &str, files: &[Bytes]) -> Result<Vec<u8>, NoMemory> {
    let mut drawing = Drawing {
        text: Vec::new(alloc),
        ends: Vec::new(alloc),
    };
    put(&mut drawing.text, first)?;
    drawing.put_files(alloc, sheet, files)?;
    ended(drawing)
}

const MAP_LINE: &str =
    "// Drawn from classes, to be reviewed. What is in a comment isn't known. Say \"by value\" behind a table where nobody can tell which objects its rows are.\n";

const MAP_END: &str =
    "// query = ..;\n// queryLong = ..;\n// queryBoolean = ..;\n// texts binary;\n";

const SCHEMA_LINE: &str =
    "-- Drawn from classes, to be reviewed. What is in a comment isn't known.\n";

/// A map of the classes and records of Java files, in the order of the files: of each its first class or record and those directly in it. It is to be
/// reviewed: what isn't known stands in a comment, and a table of which no name is known is refused as a map until it is said. Files that can't be read as
/// Java are passed over. It fails only by want of memory.
pub fn draw_map(alloc: Global, files: &[Bytes]) -> Result<Bytes, NoMemory> {
    let mut text = drawn(alloc, Sheet::Map, MAP_LINE, files)?;
    put(&mut text, MAP_END)?;
    Ok(Bytes::from_vec(text))
}

/// A schema of the classes and records of Java files, a table each as `draw_map` has them. It is to be reviewed: what isn't known stands in a comment. It
/// fails only by want of memory.
pub fn draw_schema(alloc: Global, files: &[Bytes]) -> Result<Bytes, NoMemory> {
    let text = drawn(alloc, Sheet::Schema, SCHEMA_LINE, files)?;
    Ok(Bytes::from_vec(text))
}
