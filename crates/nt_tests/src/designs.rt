// The value of a constant, and copies.
use nt_design::{
    Act, Design, Env, Object, Tree, copy_act, copy_tree, meaning, reads_decide, values_fit,
};
use nt_value::{Base, Bits, Leaf, Place, Unit, Value, same};
use sqlite_items::{Boxed, Items};
use std::test::Fail;

#[test]
fn constant_is_its_value(rt: HostRuntime) -> Result<(), Fail> {
    let alloc = rt.alloc();
    let design = Design {
        nets: Items::new(alloc),
        vars: Items::new(alloc),
        procs: Items::new(alloc),
        assigns: Items::new(alloc),
        functions: Items::new(alloc),
        scopes: Items::new(alloc),
        unit: Unit {
            ten: 0,
            base: Base::Ns,
        },
    };
    let env = Env {
        time: 0,
        nets: Items::new(alloc),
        vars: Items::new(alloc),
        locals: Items::new(alloc),
        many: Items::new(alloc),
    };
    let five = Value::new(vec![in alloc; Bits::number(Leaf::INT, 5)]?);
    let tree = Tree::Const(Value::new(vec![in alloc; Bits::number(Leaf::INT, 5)]?));
    let value = meaning(alloc, &design, &tree, &env);
    assert!(rt; matches!(&value, Ok(value) if same(value, &five)));
    Ok(())
}

#[test]
fn copies_keep_their_kind(rt: HostRuntime) -> Result<(), Fail> {
    let alloc = rt.alloc();
    reads_decide();
    values_fit();
    let tree = Tree::Leaves {
        of: Boxed::new(alloc, Tree::Read(Object::Net(3)))?,
        first: 1,
        count: 2,
    };
    let copied = copy_tree(alloc, &tree)?;
    assert!(rt;
        matches!(
            &copied,
            Tree::Leaves {
                first: 1,
                count: 2,
                ..
            }
        )
    );
    let at = Place {
        file: 0,
        offset: 0,
        line: 1,
        column: 1,
    };
    let act = Act::Finish { at };
    let copied = copy_act(alloc, &act)?;
    assert!(rt; matches!(&copied, Act::Finish { .. }));
    Ok(())
}
