use crate::designs::{walked, whole, word};
use std::test::Fail;
use vh_base::{Object, Relation};
use vh_design::Kind;
use vh_objects::{Found, ObjectKind, kind_of, one};

#[test]
fn a_relation_to_one_leads_from_each_object(rt: HostRuntime) -> Result<(), Fail> {
    let d = walked(rt.alloc())?.expect(&rt, "every rule is kept");
    for (relation, from, to) in [
        (Relation::VpiModule, whole(12), Found::Object(whole(0))),
        (Relation::VpiModule, whole(14), Found::Object(whole(0))),
        (Relation::VpiModule, whole(18), Found::Object(whole(16))),
        (Relation::VpiModule, whole(16), Found::Object(whole(0))),
        (Relation::VpiModule, whole(0), Found::None),
        (Relation::VpiModule, word(5, 2), Found::Object(whole(0))),
        (Relation::VpiScope, whole(12), Found::Object(whole(11))),
        (Relation::VpiScope, whole(14), Found::Object(whole(13))),
        (Relation::VpiScope, whole(10), Found::Object(whole(0))),
        (Relation::VpiScope, whole(0), Found::None),
        (Relation::VpiScope, word(5, 1), Found::Object(whole(0))),
        (Relation::VpiParent, word(5, 1), Found::Object(whole(5))),
        (Relation::VpiParent, whole(5), Found::NoRelation),
        (Relation::VpiParent, whole(12), Found::NoRelation),
        (Relation::VpiSysTfCall, whole(0), Found::NoRelation),
        (Relation::VpiNet, whole(0), Found::NoRelation),
    ] {
        assert_eq!(rt; one(&d, relation, Some(from)), to);
    }
    Ok(())
}

#[test]
fn no_relation_leads_from_what_is_not_there(rt: HostRuntime) -> Result<(), Fail> {
    let d = walked(rt.alloc())?.expect(&rt, "every rule is kept");
    assert_eq!(rt; one(&d, Relation::VpiModule, None), Found::NoRelation);
    for from in [whole(21), word(5, 0), word(5, 3), word(2, 0)] {
        assert_eq!(rt; one(&d, Relation::VpiModule, Some(from)), Found::NoRelation);
        assert!(rt; kind_of(&d, &from).is_none());
    }
    Ok(())
}

#[test]
fn objects_have_kinds(rt: HostRuntime) -> Result<(), Fail> {
    let d = walked(rt.alloc())?.expect(&rt, "every rule is kept");
    assert_eq!(rt; kind_of(&d, &whole(5)), Some(ObjectKind::Of(Kind::Memory)));
    assert_eq!(rt; kind_of(&d, &word(5, 1)), Some(ObjectKind::Word));
    assert_eq!(rt; ObjectKind::Of(Kind::GenScope).name(), "vpiGenScope");
    assert_eq!(rt; ObjectKind::Of(Kind::IntegerVar).name(), "vpiIntegerVar");
    assert_eq!(rt; ObjectKind::Word.name(), "vpiMemoryWord");
    assert!(rt; ObjectKind::Word.has_value());
    assert!(rt; !ObjectKind::Of(Kind::Memory).has_value());
    Ok(())
}
