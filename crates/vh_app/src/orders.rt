ghost use Rattle.std.specs.Prelude.{◌≡◌, IfOk, option_map};
ghost use Rattle.vh_app.specs.Next as spec;
ghost use Rattle.vh_app.specs.Next.{order_from};

use crate::form::{Body, Form};
use crate::script::Script;
use crate::value::{handle_at, number_at, text_at};
use crate::vars::Vars;
use std::alloc::Global;
use vh_base::{BodyName, NoMemory, Order, ProcName, Seen, Short};

impl Script {
    // A procedure of the script itself.
    fn own(&self, name: &Short) -> Result<ProcName, NoMemory>
        ensures { IfOk result (λ procedure. procedure ≡ spec.own self.now name.now) }
    {
        Ok(ProcName {
            app: self.name().copy()?,
            name: name.copy()?,
        })
    }

    fn own_if(&self, name: &Option<Short>) -> Result<Option<ProcName>, NoMemory>
        ensures { IfOk result (λ procedure. procedure ≡ option_map (spec.own self.now) name.now) }
    {
        match name {
            Some(name) => Ok(Some(self.own(name)?)),
            None => Ok(None),
        }
    }

    fn body(&self, body: &Body) -> Result<BodyName, NoMemory>
        ensures { IfOk result (λ called. called ≡ spec.body_from self.now body.now) }
    {
        match body {
            Body::Proc(name) => Ok(BodyName::Proc(self.own(name)?)),
            Body::Native(name) => Ok(BodyName::Native(name.copy()?)),
        }
    }

    // The order of a form, which shares its texts. It takes memory where a text is made of a number, a
    // handle or an error.
    pub(crate) fn order(
        &self,
        alloc: Global,
        vars: &Vars,
        seen: &Seen,
        form: &Form,
    ) -> Result<Order, NoMemory>
        ensures { IfOk result (λ order. order ≡ order_from self.now vars.now seen.now form.now) }
    {
        Ok(match form {
            Form::ByName { text, scope } => Order::ByName {
                text: text_at(alloc, vars, seen, text)?,
                scope: handle_at(vars, seen, scope),
            },
            Form::ByIndex { memory, index } => Order::ByIndex {
                h: handle_at(vars, seen, memory),
                n: number_at(vars, seen, index),
            },
            Form::Handle { relation, object } => Order::Handle {
                relation: *relation,
                h: handle_at(vars, seen, object),
            },
            Form::Iterate { relation, object } => Order::Iterate {
                relation: *relation,
                h: handle_at(vars, seen, object),
            },
            Form::Scan(atom) => Order::Scan {
                h: handle_at(vars, seen, atom),
            },
            Form::Free(atom) => Order::Free {
                h: handle_at(vars, seen, atom),
            },
            Form::Compare(a, b) => Order::Compare {
                a: handle_at(vars, seen, a),
                b: handle_at(vars, seen, b),
            },
            Form::Get { property, object } => Order::Get {
                property: *property,
                h: handle_at(vars, seen, object),
            },
            Form::GetStr { property, object } => Order::GetStr {
                property: *property,
                h: handle_at(vars, seen, object),
            },
            Form::GetValue { object, format } => Order::GetValue {
                h: handle_at(vars, seen, object),
                format: *format,
            },
            Form::PutValue {
                object,
                format,
                text,
                mode,
                time,
                event,
            } => Order::PutValue {
                h: handle_at(vars, seen, object),
                format: *format,
                text: text_at(alloc, vars, seen, text)?,
                mode: *mode,
                time: number_at(vars, seen, time),
                event: *event,
            },
            Form::Cancel(atom) => Order::Cancel {
                h: handle_at(vars, seen, atom),
            },
            Form::GetTime => Order::GetTime,
            Form::Register {
                reason,
                object,
                time,
                body,
                data,
            } => Order::Register {
                reason: *reason,
                h: handle_at(vars, seen, object),
                time: number_at(vars, seen, time),
                body: self.body(body)?,
                n: number_at(vars, seen, data),
            },
            Form::Remove(atom) => Order::Remove {
                h: handle_at(vars, seen, atom),
            },
            Form::CbInfo(atom) => Order::CbInfo {
                h: handle_at(vars, seen, atom),
            },
            Form::RegisterSystf {
                kind,
                name,
                size,
                calltf,
                compiletf,
            } => Order::RegisterSystf {
                kind: *kind,
                text: text_at(alloc, vars, seen, name)?,
                n: number_at(vars, seen, size),
                calltf: self.own(calltf)?,
                compiletf: self.own_if(compiletf)?,
            },
            Form::ChkError => Order::ChkError,
            Form::Control { stop } => Order::Control { stop: *stop },
            Form::Print(atom) => Order::Print {
                text: text_at(alloc, vars, seen, atom)?,
            },
            Form::SetData(atom) => Order::SetData {
                n: number_at(vars, seen, atom),
            },
        })
    }
}
