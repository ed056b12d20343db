// The values of a case: a heap, the names, and the calls, each with the tests of what it requires.

use crate::classes::{class_names, element_of, lineage_of, node_part};
use crate::conditions::{
    is_array, is_dict, is_operation, is_uncounted, knows, knows_all, knows_object,
};
use crate::methods::{array_method, binary_op, dict_method, string_method};
use crate::refusal::{BAD_CASE, Refusal};
use call_support::changes::{new_array, new_dict};
use call_support::views::items;
use container_calls::{array_call, dict_call, get_index, operate, set_index, truth};
use gd_syntax::TreeOp;
use ref_objects::heap::Heap;
use std::alloc::{AllocError, Global};
use string_calls::{format_text, string_call, text_of};
use variant_values::cells::{Cell, Connections, ObjectCell, Values};
use variant_values::classes::{ClassNames, ClassTag, ElementTag};
use variant_values::entries::Entries;
use variant_values::faults::Trouble;
use variant_values::operators::BinaryOp;
use variant_values::texts::Str;
use variant_values::values::{Serial, Value};

/// A name and its value.
#[derive(Drop)]
struct Named {
    name: Str,
    value: Value,
}

#[derive(Drop)]
pub struct World {
    alloc: Global,
    pub heap: Heap,
    pub classes: ClassNames,
    names: Vec<Named>,
    /// What the last method was called of, or what the last write was into.
    pub receiver: Value,
}

impl World {
    pub fn new(alloc: Global) -> Result<World, AllocError> {
        Ok(World {
            alloc,
            heap: Heap::new(alloc)?,
            classes: class_names(alloc)?,
            names: Vec::new(alloc),
            receiver: Value::Null,
        })
    }

    /// The value of a name.
    pub fn named(&self, name: &str) -> Result<Option<Value>, Refusal> {
        for named in self.names.iter() {
            if named.name.as_str() == name {
                return Ok(Some(named.value.clone()?));
            }
        }
        Ok(None)
    }

    /// Gives a name a value.
    pub fn name(&mut self, name: &str, value: Value) -> Result<(), Refusal> {
        self.names.retain(|named| named.name.as_str() != name);
        let name = Str::new(self.alloc, name)?;
        self.names.push(Named { name, value })?;
        Ok(())
    }

    /// What the heap has room for.
    fn room(&self) -> (u64, u64) {
        (self.heap.room(), self.heap.serials_left())
    }

    /// What a call gave. Where it was refused, the heap has the room that it had before.
    fn settled<T: Drop>(&self, room: (u64, u64), given: Result<T, Trouble>) -> Result<T, Refusal> {
        match given {
            Ok(value) => Ok(value),
            Err(trouble) => {
                if self.room() == room {
                    Err(Refusal::from(trouble))
                } else {
                    Err(BAD_CASE)
                }
            }
        }
    }

    /// A new array.
    pub fn array(&mut self, items: Vec<Value>, of: Option<ElementTag>) -> Result<Value, Refusal> {
        if !knows_all(&self.heap, items.as_slice()) {
            return Err(BAD_CASE);
        }
        Ok(new_array(&mut self.heap, items, of)?)
    }

    /// An array of an element type, with the items of another.
    fn typed(&mut self, of: Serial, element: &str) -> Result<Value, Refusal> {
        let element = element_of(element).ok_or(BAD_CASE)?;
        if !is_array(&self.heap, of) {
            return Err(BAD_CASE);
        }
        let items = items(&self.heap, of).to_vec(self.alloc)?;
        self.array(items, Some(element))
    }

    /// An empty dictionary.
    pub fn dict(&mut self) -> Result<Value, Refusal> {
        Ok(new_dict(&mut self.heap, Entries::new(self.alloc))?)
    }

    /// `of[index]`
    pub fn item(&mut self, of: &Value, index: &Value) -> Result<Value, Refusal> {
        if !knows(&self.heap, of) {
            return Err(BAD_CASE);
        }
        Ok(get_index(self.alloc, &self.heap, of, index)?)
    }

    /// `of[index] = to`
    pub fn put(&mut self, of: &Value, index: &Value, to: Value) -> Result<(), Refusal> {
        self.receiver = of.clone()?;
        if !knows(&self.heap, of) || !knows(&self.heap, index) || !knows(&self.heap, &to) {
            return Err(BAD_CASE);
        }
        let room = self.room();
        let given = set_index(self.alloc, &mut self.heap, of, index, to);
        self.settled(room, given)
    }

    /// The text of a value.
    pub fn text(&self, of: &Value) -> Result<Value, Refusal> {
        if !knows(&self.heap, of) {
            return Err(BAD_CASE);
        }
        let text = text_of(self.alloc, &self.heap, of, &self.classes)?;
        Ok(Value::Str(text))
    }

    /// `not of`
    pub fn denial(&self, of: &Value) -> Result<Value, Refusal> {
        if !knows(&self.heap, of) {
            return Err(BAD_CASE);
        }
        Ok(Value::Bool(!truth(&self.heap, of)))
    }

    fn format(&self, pattern: &Str, arg: &Value) -> Result<Value, Refusal> {
        if !knows(&self.heap, arg) {
            return Err(BAD_CASE);
        }
        let text = format_text(self.alloc, &self.heap, pattern, arg, &self.classes)?;
        Ok(Value::Str(text))
    }

    fn operation(&mut self, op: BinaryOp, a: &Value, b: &Value) -> Result<Value, Refusal> {
        if !knows(&self.heap, a) || !knows(&self.heap, b) {
            return Err(BAD_CASE);
        }
        if !is_operation(op, a) {
            return Err(BAD_CASE);
        }
        let room = self.room();
        let given = operate(self.alloc, &mut self.heap, op, a, b);
        self.settled(room, given)
    }

    /// A binary operation, where a string before `%` is a format.
    pub fn binary(&mut self, op: TreeOp, a: &Value, b: &Value) -> Result<Value, Refusal> {
        match (op, a) {
            (TreeOp::Rem, Value::Str(pattern)) => self.format(pattern, b),
            _ => self.operation(binary_op(op), a, b),
        }
    }

    fn string(&mut self, of: &Str, name: &str, args: &[Value]) -> Result<Value, Refusal> {
        let method = string_method(name).ok_or(BAD_CASE)?;
        if !knows_all(&self.heap, args) {
            return Err(BAD_CASE);
        }
        let room = self.room();
        let given = string_call(self.alloc, &mut self.heap, method, of, args);
        self.settled(room, given)
    }

    fn of_array(&mut self, of: Serial, name: &str, args: &[Value]) -> Result<Value, Refusal> {
        let method = array_method(name).ok_or(BAD_CASE)?;
        if !is_array(&self.heap, of) || !knows_all(&self.heap, args) {
            return Err(BAD_CASE);
        }
        let room = self.room();
        let given = array_call(self.alloc, &mut self.heap, method, of, args);
        self.settled(room, given)
    }

    fn of_dict(&mut self, of: Serial, name: &str, args: &[Value]) -> Result<Value, Refusal> {
        let method = dict_method(name).ok_or(BAD_CASE)?;
        if !is_dict(&self.heap, of) || !knows_all(&self.heap, args) {
            return Err(BAD_CASE);
        }
        let room = self.room();
        let given = dict_call(self.alloc, &mut self.heap, method, of, args);
        self.settled(room, given)
    }

    fn object(&mut self, class: ClassTag) -> Result<Value, Refusal> {
        let lineage = lineage_of(self.alloc, class)?;
        if lineage.as_slice().is_empty() {
            return Err(BAD_CASE);
        }
        let node = node_part(self.alloc, lineage.as_slice())?;
        let cell = Cell::Object(ObjectCell {
            lineage,
            fields: Values::new(self.alloc),
            connections: Connections::new(self.alloc),
            node,
        });
        Ok(Value::Object(self.heap.new_cell(cell)?))
    }

    fn free(&mut self, of: Serial) -> Result<Value, Refusal> {
        if !knows_object(&self.heap, of) || !is_uncounted(&self.heap, of) {
            return Err(BAD_CASE);
        }
        self.heap.free_node(of)?;
        Ok(Value::Null)
    }

    /// Calls a method by its name.
    pub fn method(&mut self, of: Value, name: &str, args: &[Value]) -> Result<Value, Refusal> {
        self.receiver = of.clone()?;
        match &of {
            Value::Str(text) => self.string(text, name, args),
            Value::Array(s) => self.of_array(*s, name, args),
            Value::Dict(s) => self.of_dict(*s, name, args),
            Value::Class(class) if name == "new" => self.object(*class),
            Value::Object(s) if name == "free" => self.free(*s),
            _ => Err(BAD_CASE),
        }
    }

    /// A value in so many arrays.
    fn nested(&mut self, count: i64, inner: &Value) -> Result<Value, Refusal> {
        let mut v = inner.clone()?;
        for _ in 0..count {
            let mut items = Vec::new(self.alloc);
            items.push(v)?;
            v = self.array(items, None)?;
        }
        Ok(v)
    }

    /// A value in so many dictionaries.
    fn nested_dicts(&mut self, count: i64, inner: &Value) -> Result<Value, Refusal> {
        let mut v = inner.clone()?;
        for _ in 0..count {
            let outer = self.dict()?;
            self.put(&outer, &Value::Int(1), v)?;
            v = outer;
        }
        Ok(v)
    }

    /// A dictionary of so many keys.
    fn numbered(&mut self, count: i64) -> Result<Value, Refusal> {
        let dict = self.dict()?;
        for key in 0..count {
            self.put(&dict, &Value::Int(key), Value::Null)?;
        }
        Ok(dict)
    }

    /// A string of so many letters and an end, which may be longer than a script can make one.
    fn overlong(&self, count: i64, end: &Str) -> Result<Value, Refusal> {
        let mut text = String::new(self.alloc);
        for _ in 0..count {
            text.push('a')?;
        }
        text.push_str(end.as_str())?;
        Ok(Value::Str(Str::from_string(text)?))
    }

    /// Calls a function by its name.
    pub fn function(&mut self, name: &str, args: &[Value]) -> Result<Value, Refusal> {
        let heap = &self.heap;
        match (name, args) {
            ("str", [v]) => self.text(v),
            ("typed", [Value::Array(s), Value::Str(element)]) => self.typed(*s, element.as_str()),
            ("nested", [Value::Int(n), v]) => self.nested(*n, v),
            ("nested_dicts", [Value::Int(n), v]) => self.nested_dicts(*n, v),
            ("numbered", [Value::Int(n)]) => self.numbered(*n),
            ("overlong", [Value::Int(n), Value::Str(end)]) => self.overlong(*n, end),
            ("weakref", [Value::Object(s)]) => Ok(Value::Weak(*s)),
            ("Callable", [Value::Object(s), Value::Str(f)]) => Ok(Value::Callable(*s, f.clone()?)),
            ("Signal", [Value::Object(s), Value::Str(f)]) => Ok(Value::Signal(*s, f.clone()?)),
            ("id", [Value::Array(s) | Value::Dict(s) | Value::Object(s)]) => count(s.0),
            ("cells", []) => count(u64::MAX - heap.serials_left()),
            ("objects", []) => count(heap.live_count()),
            ("room", []) => count(heap.room()),
            _ => Err(BAD_CASE),
        }
    }
}

fn count(n: u64) -> Result<Value, Refusal> {
    match i64::try_from(n) {
        Ok(n) => Ok(Value::Int(n)),
        Err(_) => Err(BAD_CASE),
    }
}
