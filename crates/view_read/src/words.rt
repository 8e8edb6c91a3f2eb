// The words of a file's class: what may be read in its methods.
use crate::begins::{Begins, is_named};
use crate::reader::{Method as MethodWithin, Reader};
use qbs_base::{Bytes, Items, Name, NoMemory, Table};
use std::alloc::Global;
use view_map::{Literal, Part, PatternItem, ViewMap};
use view_rules::ClassConstant;
use view_scope::{
    constants_of, first_is_free, is_clear, is_free_in, is_no_field, is_pattern_free,
    is_template_read, is_there, keeps_meaning, keeps_template, method_of,
};
use view_shapes::{File, Method, Stretch, members_of};
use view_statements::{Read, Words};

/// The members of a class, and its constants.
#[derive(Drop)]
pub struct Parts {
    pub members: Items<Stretch>,
    pub constants: Items<ClassConstant>,
}

/// The members of a file's class, and its constants. It fails only by want of memory.
pub fn parts_of(alloc: Global, file: &File) -> Result<Parts, NoMemory> {
    let members = members_of(alloc, file.items, file.closings, file.class.from)?;
    let constants = constants_of(alloc, file.items, file.closings, members.as_slice())?;
    Ok(Parts { members, constants })
}

/// The name of a class that nothing obscures, and the number of its first item.
#[derive(Clone, Copy)]
struct Clear<'a> {
    name: &'a [u8],
    first: usize,
}

/// A file, and what is known of its class, for all methods. By the numbers of their first items: the fetch patterns and the templates that mean
/// there what the map says, the constants of the map that no field hides, the constants of the class, and the classes that nothing obscures.
#[derive(Drop)]
pub struct Class<'a> {
    map: &'a ViewMap,
    tables: &'a [Table],
    file: &'a File<'a>,
    parts: &'a Parts,
    begins: Begins<'a>,
    fetches: Vec<Option<usize>>,
    templates: Vec<Option<usize>>,
    map_constants: Vec<Option<usize>>,
    constants: Vec<usize>,
    clear: Vec<Clear<'a>>,
}

/// How many items may be gone through in a method for its constants.
const CONSTANT_LOOKS: usize = 33_554_432;

const CLASSES: [&[u8]; 5] = [
    b"Objects",
    b"Math",
    b"Collections",
    b"Comparator",
    b"Iterator",
];

fn first_of_pattern(pattern: &[PatternItem]) -> &[u8] {
    match pattern {
        [first, ..] => first.bytes.as_slice(),
        [] => &[],
    }
}

fn first_of_template(front: &[Part]) -> &[u8] {
    match front {
        [Part::Item(first), ..] => first.bytes.as_slice(),
        _ => &[],
    }
}

fn first_of_names(names: &[Name]) -> &[u8] {
    match names {
        [first, ..] => first.as_slice(),
        [] => &[],
    }
}

impl<'a> Class<'a> {
    /// Nothing is known yet but the first items of all words.
    fn begun(
        alloc: Global,
        map: &'a ViewMap,
        tables: &'a [Table],
        file: &'a File<'a>,
        parts: &'a Parts,
    ) -> Result<Class<'a>, NoMemory> {
        let mut begins = Begins::new(alloc);
        let mut fetches = Vec::new(alloc);
        for fetch in map.fetches.as_slice() {
            fetches.push(Some(begins.put(first_of_pattern(fetch.items.as_slice()))?))?;
        }
        let mut templates = Vec::new(alloc);
        for template in map.templates.as_slice() {
            templates.push(Some(begins.put(first_of_template(template.front.as_slice()))?))?;
        }
        let mut map_constants = Vec::new(alloc);
        for constant in map.constants.as_slice() {
            map_constants.push(Some(begins.put(first_of_names(constant.names.as_slice()))?))?;
        }
        let mut constants = Vec::new(alloc);
        for constant in parts.constants.as_slice() {
            constants.push(begins.put(constant.name.as_slice())?)?;
        }
        let mut clear = Vec::new(alloc);
        for name in CLASSES {
            let first = begins.put(name)?;
            clear.push(Clear { name, first })?;
        }
        for class in map.classes.as_slice() {
            let name = class.class.as_slice();
            let first = begins.put(name)?;
            clear.push(Clear { name, first })?;
        }
        Ok(Class {
            map,
            tables,
            file,
            parts,
            begins,
            fetches,
            templates,
            map_constants,
            constants,
            clear,
        })
    }

    /// Leaves out the words that the file doesn't name, or that don't mean there what the map says.
    fn keep_meant(&mut self, alloc: Global) -> Result<(), NoMemory> {
        let named = self.begins.named(alloc, self.file.items)?;
        self.keep_fetches(named.as_slice());
        self.keep_templates(named.as_slice());
        self.keep_constants(named.as_slice());
        self.keep_clear(alloc, named.as_slice())
    }

    fn keep_fetches(&mut self, named: &[bool]) {
        let file = self.file;
        let members = self.parts.members.as_slice();
        for (fetch, first) in self
            .map
            .fetches
            .as_slice()
            .iter()
            .zip(self.fetches.as_mut_slice().iter_mut())
        {
            let kept = is_named(named, *first)
                && keeps_meaning(
                    self.map,
                    file.items,
                    file.closings,
                    file.rounds,
                    file.class,
                    members,
                    fetch,
                );
            if !kept {
                *first = None;
            }
        }
    }

    fn keep_templates(&mut self, named: &[bool]) {
        let file = self.file;
        let members = self.parts.members.as_slice();
        for (template, first) in self
            .map
            .templates
            .as_slice()
            .iter()
            .zip(self.templates.as_mut_slice().iter_mut())
        {
            let kept = is_named(named, *first)
                && keeps_template(
                    self.map,
                    file.items,
                    file.closings,
                    file.rounds,
                    file.class,
                    members,
                    template,
                );
            if !kept {
                *first = None;
            }
        }
    }

    fn keep_constants(&mut self, named: &[bool]) {
        let file = self.file;
        for (constant, first) in self
            .map
            .constants
            .as_slice()
            .iter()
            .zip(self.map_constants.as_mut_slice().iter_mut())
        {
            let kept = is_named(named, *first)
                && is_no_field(file.items, file.closings, file.rounds, constant);
            if !kept {
                *first = None;
            }
        }
    }

    fn keep_clear(&mut self, alloc: Global, named: &[bool]) -> Result<(), NoMemory> {
        let all = std::mem::replace(&mut self.clear, Vec::new(alloc));
        for class in all {
            if is_named(named, Some(class.first)) && is_clear(self.file.items, class.name) {
                self.clear.push(class)?;
            }
        }
        Ok(())
    }
}

/// What is known of a file with these parts, for all its methods. It fails only by want of memory.
pub fn known_of<'a>(
    alloc: Global,
    map: &'a ViewMap,
    tables: &'a [Table],
    file: &'a File<'a>,
    parts: &'a Parts,
) -> Result<Class<'a>, NoMemory> {
    let mut known = Class::begun(alloc, map, tables, file, parts)?;
    known.keep_meant(alloc)?;
    Ok(known)
}

/// Numbers, each of which is one more than the one before.
#[derive(Drop)]
struct Numbers {
    next: u32,
    list: Items<u32>,
}

impl Numbers {
    fn new(alloc: Global) -> Numbers {
        Numbers {
            next: 0,
            list: Items::new(alloc),
        }
    }

    fn has_room(&self, most: usize) -> bool {
        self.list.len() < most
    }

    /// Takes the next number, or leaves it out.
    fn take(&mut self, wanted: bool) -> Result<(), NoMemory> {
        if wanted {
            self.list.push(self.next)?;
        }
        self.next = self.next.saturating_add(1);
        Ok(())
    }
}

/// How many constants of a kind are listed of a method, since each is looked for in all of it.
fn most_constants(m: &Method) -> usize {
    let count = m.to.saturating_sub(m.name);
    if count == 0 {
        0
    } else {
        CONSTANT_LOOKS / count
    }
}

fn copy_bytes(alloc: Global, bytes: &[u8]) -> Result<Bytes, NoMemory> {
    let copy = bytes.to_vec(alloc)?;
    Ok(Bytes::from_vec(copy))
}

fn copy_constant(alloc: Global, c: &ClassConstant) -> Result<ClassConstant, NoMemory> {
    Ok(ClassConstant {
        name: copy_bytes(alloc, c.name.as_slice())?,
        kind: c.kind,
        value: Literal {
            kind: c.value.kind,
            negative: c.value.negative,
            bytes: copy_bytes(alloc, c.value.bytes.as_slice())?,
        },
    })
}

impl<'a> Class<'a> {
    fn classes(&self, alloc: Global) -> Result<Items<u32>, NoMemory> {
        let name = self.name();
        let mut numbers = Numbers::new(alloc);
        for c in self.map.classes.as_slice() {
            numbers.take(is_there(name, &c.within))?;
        }
        Ok(numbers.list)
    }

    fn name(&self) -> &'a [u8] {
        match self.file.items.get(self.file.class.name) {
            Some(item) => item.bytes.as_slice(),
            None => &[],
        }
    }

    fn named_fetches(
        &self,
        alloc: Global,
        m: &Method,
        named: &[bool],
    ) -> Result<Items<u32>, NoMemory> {
        let file = self.file;
        let mut numbers = Numbers::new(alloc);
        for (fetch, first) in self
            .map
            .fetches
            .as_slice()
            .iter()
            .zip(self.fetches.as_slice().iter())
        {
            numbers.take(
                is_named(named, *first)
                    && is_pattern_free(
                        self.map,
                        file.items,
                        file.closings,
                        file.rounds,
                        m,
                        fetch.items.as_slice(),
                    ),
            )?;
        }
        Ok(numbers.list)
    }

    fn named_templates(
        &self,
        alloc: Global,
        m: &Method,
        named: &[bool],
    ) -> Result<Items<u32>, NoMemory> {
        let file = self.file;
        let mut numbers = Numbers::new(alloc);
        for (template, first) in self
            .map
            .templates
            .as_slice()
            .iter()
            .zip(self.templates.as_slice().iter())
        {
            numbers.take(
                is_named(named, *first)
                    && is_template_read(
                        self.map,
                        file.items,
                        file.closings,
                        file.rounds,
                        m,
                        template,
                    ),
            )?;
        }
        Ok(numbers.list)
    }

    fn named_map_constants(
        &self,
        alloc: Global,
        m: &Method,
        named: &[bool],
    ) -> Result<Items<u32>, NoMemory> {
        let file = self.file;
        let most = most_constants(m);
        let mut numbers = Numbers::new(alloc);
        for (constant, first) in self
            .map
            .constants
            .as_slice()
            .iter()
            .zip(self.map_constants.as_slice().iter())
        {
            let wanted = is_named(named, *first)
                && numbers.has_room(most)
                && first_is_free(
                    file.items,
                    file.closings,
                    file.rounds,
                    m,
                    constant.names.as_slice(),
                );
            numbers.take(wanted)?;
        }
        Ok(numbers.list)
    }

    fn named_constants(
        &self,
        alloc: Global,
        m: &Method,
        named: &[bool],
    ) -> Result<Items<ClassConstant>, NoMemory> {
        let file = self.file;
        let most = most_constants(m);
        let mut list = Items::new(alloc);
        for (constant, first) in self
            .parts
            .constants
            .as_slice()
            .iter()
            .zip(self.constants.as_slice().iter())
        {
            let name = constant.name.as_slice();
            if is_named(named, Some(*first))
                && list.len() < most
                && is_free_in(file.items, file.closings, file.rounds, m, name)
            {
                list.push(copy_constant(alloc, constant)?)?;
            }
        }
        Ok(list)
    }

    fn named_clear(&self, alloc: Global, named: &[bool]) -> Result<Items<Bytes>, NoMemory> {
        let mut list = Items::new(alloc);
        for class in self.clear.as_slice() {
            if is_named(named, Some(class.first)) {
                list.push(copy_bytes(alloc, class.name)?)?;
            }
        }
        Ok(list)
    }

    /// What may be read in a method, of what it names.
    fn words(&self, alloc: Global, m: &Method) -> Result<Words, NoMemory> {
        let (_, rest) = self.file.items.split_at(m.name.min(self.file.items.len()));
        let (items, _) = rest.split_at(m.to.saturating_sub(m.name).min(rest.len()));
        let named = self.begins.named(alloc, items)?;
        let named = named.as_slice();
        Ok(Words {
            classes: self.classes(alloc)?,
            fetches: self.named_fetches(alloc, m, named)?,
            templates: self.named_templates(alloc, m, named)?,
            map_constants: self.named_map_constants(alloc, m, named)?,
            constants: self.named_constants(alloc, m, named)?,
            clear: self.named_clear(alloc, named)?,
        })
    }

    pub fn file(&self) -> &'a File<'a> {
        self.file
    }

    pub fn members(&self) -> &'a [Stretch] {
        self.parts.members.as_slice()
    }

    /// A reader of a method, at an item.
    pub fn reader<'b>(&'b self, alloc: Global, read: &'b Read, at: usize) -> Reader<'b> {
        let file = self.file;
        let within = MethodWithin {
            map: self.map,
            tables: self.tables,
            items: file.items,
            closings: file.closings,
            rounds: file.rounds,
            name: read.method.name,
            end: read.method.to,
            words: &read.words,
        };
        Reader::new(alloc, within, at)
    }

    /// The method that a member is, and what may be read in it.
    pub fn read(&self, alloc: Global, member: Stretch) -> Result<Option<Read>, NoMemory> {
        let file = self.file;
        let Some(method) = method_of(alloc, file.items, file.closings, member)? else {
            return Ok(None);
        };
        let words = self.words(alloc, &method)?;
        Ok(Some(Read { method, words }))
    }
}
