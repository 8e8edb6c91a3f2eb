// The blocks of a method's body, and the slices in them.
use crate::operators::ROOM;
use crate::reader::{Mark, Reader, Trust};
use crate::reason::{Reason, Unseen};
use crate::setting::Declared;
use crate::slices::holds_loop;
use crate::statements::LEVELS;
use qbs_base::{Fail, Items, NoMemory};
use view_rules::{JavaType, Sighted, is_many, type_at};
use view_scope::{Standing, is_guarded, is_tested};
use view_shapes::{Form, Stretch, end_of, form_of, head, inner_blocks, is_named, is_word};
use view_statements::{Ending, Group, Slice, Statement, at_top};

/// A stretch of the file in which loops aren't seen, unless a stretch inside of it says another reason or they stand in a slice.
#[derive(Clone, Copy)]
pub struct Hidden {
    pub from: usize,
    pub to: usize,
    pub unseen: Unseen,
}

/// What is found: the slices of the method that is looked into; where those of all methods stand; and where loops aren't seen.
#[derive(Drop)]
pub struct Finding {
    pub slices: Vec<Slice>,
    pub places: Vec<Stretch>,
    pub hidden: Vec<Hidden>,
}

/// What is known of a method beside what is read.
#[derive(Clone, Copy)]
pub struct Around<'a> {
    pub source: &'a view_shapes::Method,
    pub standing: &'a [Standing],
    /// The stretches in which variables are tested for null.
    pub tests: &'a [Stretch],
    /// First items of sequences that aren't well typed.
    pub refused: &'a [usize],
}

fn is_primitive(java: JavaType) -> bool {
    match java {
        JavaType::Scalar(t) => !t.boxed,
        _ => false,
    }
}

/// What is known of a variable wherever it stands.
fn forgotten(trust: Trust) -> Trust {
    match trust {
        Trust::Guarded | Trust::Open => Trust::Tested,
        other => other,
    }
}

fn forget(trusts: &mut [Trust]) {
    for trust in trusts {
        *trust = forgotten(*trust);
    }
}

/// What a slice declared is from outside for what stands behind it.
fn make_outer(sight: &mut [Sighted]) {
    for v in sight {
        v.outside = true;
    }
}

fn ending_of(group: Option<Group>) -> Ending {
    match group {
        Some(group) => Ending::Grouped(group),
        None => Ending::Open,
    }
}

/// Statements that were read, one behind the other, and why none goes on.
#[derive(Drop)]
struct Sequence {
    from: usize,
    to: usize,
    statements: Items<Statement>,
    group: Option<Group>,
    /// The statement behind it that isn't read.
    stopped: Option<(Stretch, Unseen)>,
}

impl<'a> Reader<'a> {
    // ---- What is in sight

    /// Forgets before which statements guards were looked for.
    fn forget_guards(&mut self) {
        forget(self.trusts.as_mut_slice());
        self.tested.truncate(0);
    }

    /// Looks for guards before the statements from a number on, for the variables that one of them names.
    fn look_for_guards(
        &mut self,
        around: &Around,
        from: usize,
        at: Stretch,
    ) -> Result<(), NoMemory> {
        for place in 0..self.trusts.len() {
            if self.is_looked_for(place, at) {
                self.look_for_guard(around, from, place)?;
            }
        }
        Ok(())
    }

    fn is_looked_for(&mut self, place: usize, at: Stretch) -> bool {
        if !matches!(self.trusts.get(place), Some(Trust::Unknown | Trust::Tested)) {
            return false;
        }
        let paid = self.pay(at.to.saturating_sub(at.from));
        match self.sight.get(place) {
            Some(v) => !paid || is_named(self.method.items, v.name.as_slice(), at.from, at.to),
            None => false,
        }
    }

    /// Finds out what is known of a variable in sight before the statements from a number on.
    fn look_for_guard(
        &mut self,
        around: &Around,
        from: usize,
        place: usize,
    ) -> Result<(), NoMemory> {
        let paid = self.pay(around.source.to.saturating_sub(around.source.from));
        let trust = self.trust(around, from, place, paid);
        if let (Trust::Open, Some(v)) = (trust, self.sight.get(place)) {
            let name = self.copy(v.name.as_slice())?;
            self.tested.push(name)?;
        }
        if let Some(slot) = self.trusts.get_mut(place) {
            *slot = trust;
        }
        Ok(())
    }

    fn trust(&self, around: &Around, from: usize, place: usize, paid: bool) -> Trust {
        let Some(v) = self.sight.get(place) else {
            return Trust::Open;
        };
        let name = v.name.as_slice();
        if !paid {
            Trust::Open
        } else if !is_tested(self.method.items, around.tests, name) {
            Trust::Sure
        } else if self.is_behind_guard(around, name, from, place) {
            Trust::Guarded
        } else {
            Trust::Open
        }
    }

    /// Whether a guard stands before the statement at a number for the variable that has a place in sight.
    fn is_behind_guard(&self, around: &Around, name: &[u8], from: usize, place: usize) -> bool {
        let body = Stretch {
            from: around.source.from,
            to: around.source.to,
        };
        let method = self.method;
        match self.declared.get(place) {
            Some(since) => is_guarded(
                method.items,
                method.closings,
                method.rounds,
                around.standing,
                body,
                from,
                name,
                *since,
            ),
            None => false,
        }
    }

    /// Puts a variable from outside in sight.
    fn put_outside(
        &mut self,
        around: &Around,
        number: usize,
        java: JavaType,
    ) -> Result<(), NoMemory> {
        let trust = if is_primitive(java) || around.tests.is_empty() {
            Trust::Sure
        } else {
            Trust::Unknown
        };
        self.put_outer(number, java, trust)
    }

    /// Puts a list or set from outside in sight that is declared by `var`.
    fn put_inferred(&mut self, declared: Declared) -> Result<(), NoMemory> {
        let mark = self.mark();
        self.operators = 0;
        self.at = declared.name.saturating_add(2);
        let value = match self.expression(ROOM) {
            Ok(read) => Some(read.java),
            Err(Fail::Fault(_)) => None,
            Err(Fail::NoMemory) => return Err(NoMemory),
        };
        self.take_back(mark);
        match value {
            Some(java) if is_many(java) => self.put_outer(declared.name, java, Trust::Inferred),
            _ => Ok(()),
        }
    }

    /// Puts a row in sight that goes through the rows of a fetch, and is declared by `var` in the head of a `for`.
    fn put_fetched(&mut self, around: &Around, declared: Declared) -> Result<(), NoMemory> {
        let mark = self.mark();
        self.at = declared.name.saturating_add(2);
        let read = match self.fetch() {
            Ok(read) => read,
            Err(Fail::Fault(_)) => None,
            Err(Fail::NoMemory) => return Err(NoMemory),
        };
        let is_whole = self.is_next(b")");
        self.take_back(mark);
        match read {
            Some(read) if is_whole => match read.java {
                JavaType::Rows(class) => {
                    self.put_outside(around, declared.name, JavaType::Row(class))
                }
                _ => Ok(()),
            },
            _ => Ok(()),
        }
    }

    /// Puts in sight what is declared from a number on, where one of these signs stands behind the name and its type is seen.
    fn put_declared(
        &mut self,
        around: &Around,
        number: usize,
        signs: &[&[u8]],
    ) -> Result<(), NoMemory> {
        let Some(declared) = self.declared_from(number) else {
            return Ok(());
        };
        let behind = self.bytes(declared.name.saturating_add(1));
        if !signs.iter().any(|sign| *sign == behind) {
            return Ok(());
        }
        if declared.inferred && behind == b"=".as_slice() {
            return self.put_inferred(declared);
        }
        if declared.inferred && behind == b":".as_slice() {
            return self.put_fetched(around, declared);
        }
        match type_at(&self.within(), declared.ty) {
            Some(spelled) if spelled.to == declared.name => {
                self.put_outside(around, declared.name, spelled.java)
            }
            _ => Ok(()),
        }
    }

    /// Puts the parameters of the method in sight.
    pub fn put_parameters(&mut self, around: &Around) -> Result<(), NoMemory> {
        for p in around.source.parameters.as_slice() {
            match type_at(&self.within(), p.ty) {
                Some(spelled) if spelled.to == p.name => {
                    self.put_outside(around, p.name, spelled.java)?;
                }
                _ => {}
            }
        }
        Ok(())
    }

    // ---- Sequences

    /// Reads a statement that ends before a number.
    fn whole_statement(
        &mut self,
        at: Stretch,
        out: &mut Vec<Statement>,
    ) -> Result<Option<Unseen>, NoMemory> {
        if !self.pay_for_try(at.to.saturating_sub(at.from)) {
            return Ok(Some(Unseen {
                reason: Reason::Statement,
                at: at.from,
            }));
        }
        let mark = self.mark();
        let count = out.len();
        self.at = at.from;
        let unseen = match self.statement(at_top(), LEVELS, out) {
            Ok(()) if self.at == at.to => return Ok(None),
            Ok(()) => Unseen {
                reason: Reason::Statement,
                at: at.from,
            },
            Err(Fail::Fault(unseen)) => unseen,
            Err(Fail::NoMemory) => return Err(NoMemory),
        };
        out.truncate(count);
        self.take_back(mark);
        Ok(Some(unseen))
    }

    /// Reads the statements of a block from the next item on, as far as they are read.
    fn sequence(&mut self, around: &Around, block: Stretch) -> Result<Sequence, NoMemory> {
        let from = self.at;
        let mut statements = Vec::new(self.alloc);
        let mut group = None;
        let mut to = from;
        let mut stopped = None;
        for _ in from..block.to {
            let Some(end) = end_of(self.method.items, self.method.closings, to) else {
                break;
            };
            let at = Stretch { from: to, to: end };
            self.look_for_guards(around, from, at)?;
            self.at = to;
            group = self.read_group(around.source.gives_truth, at, block)?;
            if group.is_some() {
                to = block.to;
                break;
            }
            if let Some(unseen) = self.whole_statement(at, &mut statements)? {
                stopped = Some((at, unseen));
                break;
            }
            to = end;
        }
        Ok(Sequence {
            from,
            to,
            statements: Items::from_vec(statements),
            group,
            stopped,
        })
    }

    // ---- Blocks

    /// Looks for slices in a block.
    #[cycle(blocks)]
    pub fn block(
        &mut self,
        around: &Around,
        block: Stretch,
        room: usize,
        finding: &mut Finding,
    ) -> Result<(), NoMemory> {
        let mark = self.mark();
        let mut at = block.from;
        for _ in block.from..block.to {
            if at >= block.to {
                break;
            }
            at = self.from_statement(around, block, at, room, finding)?;
        }
        self.leave(mark);
        Ok(())
    }

    /// Looks for a slice that begins with the statement at a number, looks into the statement at which it ended, and gives the number
    /// behind that.
    #[cycle(blocks)]
    fn from_statement(
        &mut self,
        around: &Around,
        block: Stretch,
        at: usize,
        room: usize,
        finding: &mut Finding,
    ) -> Result<usize, NoMemory> {
        let mark = self.mark();
        self.at = at;
        self.asks = false;
        self.forget_guards();
        let sequence = self.sequence(around, block)?;
        let stopped = sequence.stopped;
        let to = sequence.to;
        self.end_sequence(around, block, mark.sight, sequence, room, finding)?;
        match stopped {
            Some((statement, unseen)) => {
                finding.hidden.push(Hidden {
                    from: statement.from,
                    to: statement.to,
                    unseen,
                })?;
                self.look_into(around, statement.from, room, finding)?;
                self.put_declared(around, statement.from, &[b"=", b";", b","])?;
                Ok(statement.to)
            }
            None if to < block.to => {
                finding.hidden.push(Hidden {
                    from: to,
                    to: block.to,
                    unseen: Unseen {
                        reason: Reason::Statement,
                        at: to,
                    },
                })?;
                Ok(block.to)
            }
            None => Ok(block.to),
        }
    }

    /// Why a sequence that was read is no slice, if it is none.
    fn reason_of(&self, refused: bool) -> Reason {
        if refused {
            Reason::Typed
        } else if self.asks {
            Reason::Statement
        } else {
            Reason::Asks
        }
    }

    /// Takes a sequence for a slice, if it is one, and puts in sight what it declares as what comes from outside.
    #[cycle(blocks)]
    fn end_sequence(
        &mut self,
        around: &Around,
        block: Stretch,
        outer: usize,
        sequence: Sequence,
        room: usize,
        finding: &mut Finding,
    ) -> Result<(), NoMemory> {
        let Sequence {
            from,
            to,
            statements,
            group,
            ..
        } = sequence;
        let refused = around.refused.contains(&from);
        if holds_loop(self.method.items, from, to) {
            let unseen = Unseen {
                reason: self.reason_of(refused),
                at: from,
            };
            finding.hidden.push(Hidden { from, to, unseen })?;
            if self.asks && !refused {
                let ending = ending_of(group);
                let slice = self.slice(block, outer, from, to, statements, ending)?;
                if self.pay_for_slice(slice.outside.len()) {
                    finding.slices.push(slice)?;
                    finding.places.push(Stretch { from, to })?;
                }
            }
        }
        self.take_back(Mark {
            sight: outer,
            params: 0,
            asks: false,
        });
        make_outer(self.sight.as_mut_slice());
        self.put_sequence(around, from, to, refused, room, finding)
    }

    /// Puts in sight what statements declare, and looks into them where they are no slice.
    #[cycle(blocks)]
    fn put_sequence(
        &mut self,
        around: &Around,
        from: usize,
        to: usize,
        refused: bool,
        room: usize,
        finding: &mut Finding,
    ) -> Result<(), NoMemory> {
        let mut at = from;
        for _ in from..to {
            if at >= to {
                return Ok(());
            }
            let Some(end) = end_of(self.method.items, self.method.closings, at) else {
                return Ok(());
            };
            if refused {
                self.look_into(around, at, room, finding)?;
            }
            self.put_declared(around, at, &[b"=", b";", b","])?;
            at = end;
        }
        Ok(())
    }

    /// Looks for slices in the blocks of a statement.
    #[cycle(blocks)]
    pub fn look_into(
        &mut self,
        around: &Around,
        number: usize,
        room: usize,
        finding: &mut Finding,
    ) -> Result<(), NoMemory> {
        let items = self.method.items;
        let closings = self.method.closings;
        if room == 0 || number >= items.len() {
            return Ok(());
        }
        match form_of(items, closings, number) {
            Form::If => match head(items, closings, number) {
                Some(body) => self.look_into_branches(around, body, room - 1, finding),
                None => Ok(()),
            },
            Form::Headed => match head(items, closings, number) {
                Some(body) => self.look_into_headed(around, number, body, room - 1, finding),
                None => Ok(()),
            },
            Form::Do => self.look_into(around, number.saturating_add(1), room - 1, finding),
            Form::Label => self.look_into(around, number.saturating_add(2), room - 1, finding),
            Form::Local | Form::Simple => Ok(()),
            Form::Braces | Form::Switch => self.look_into_blocks(around, number, room - 1, finding),
            Form::Try => {
                let gets = self.gets;
                self.gets = false;
                self.look_into_blocks(around, number, room - 1, finding)?;
                self.gets = gets;
                Ok(())
            }
        }
    }

    /// Looks for slices in the statement behind the head of an `if`, and in that behind its `else`.
    #[cycle(blocks)]
    fn look_into_branches(
        &mut self,
        around: &Around,
        body: usize,
        room: usize,
        finding: &mut Finding,
    ) -> Result<(), NoMemory> {
        let items = self.method.items;
        self.look_into(around, body, room, finding)?;
        match end_of(items, self.method.closings, body) {
            Some(next) if is_word("else", items, next) => {
                self.look_into(around, next.saturating_add(1), room, finding)
            }
            _ => Ok(()),
        }
    }

    #[cycle(blocks)]
    fn look_into_blocks(
        &mut self,
        around: &Around,
        number: usize,
        room: usize,
        finding: &mut Finding,
    ) -> Result<(), NoMemory> {
        let blocks = inner_blocks(self.alloc, self.method.items, self.method.closings, number)?;
        for block in blocks.as_slice() {
            self.block(around, *block, room, finding)?;
        }
        Ok(())
    }

    /// The same of a `for`, `while` or `synchronized`, with what its head declares in sight.
    #[cycle(blocks)]
    fn look_into_headed(
        &mut self,
        around: &Around,
        number: usize,
        body: usize,
        room: usize,
        finding: &mut Finding,
    ) -> Result<(), NoMemory> {
        let mark = self.mark();
        if self.is(number, b"for") {
            self.put_declared(around, number.saturating_add(2), &[b":", b"=", b";", b","])?;
        }
        self.look_into(around, body, room, finding)?;
        self.leave(mark);
        Ok(())
    }
}
